// Random sheets in plain lists, most of them within every limit and some at one or a little beyond it.
use crate::numbers::Generator;
use crate::plain_sheets::{PlainRule, PlainSheet, Product};
use std::alloc::{AllocError, Global};

// How much is put on a sheet.
#[derive(Clone, Copy)]
struct Extent {
    spots: u32,
    // The number that the first rule may have at most.
    first: u32,
    rules: u32,
    // How many terms each rule has.
    terms: u32,
    prices: u32,
}

// Rules and the terms of each, which use 504, 512 or 513 places.
const PLACES: [(u32, u32); 5] = [(9, 56), (8, 64), (64, 8), (9, 57), (57, 9)];

// Nine spots in a row.
const NINE_SPOTS: u32 = 511;

impl Generator {
    // A number that is rarely one of these, and otherwise small.
    fn number_or(&mut self, edges: [i32; 5]) -> i32 {
        let place = self.below(1_000) as usize;
        edges.get(place).copied().unwrap_or(self.small())
    }

    // A coefficient, or an amount.
    fn coefficient(&mut self) -> i32 {
        self.number_or([1_000_000, -1_000_000, 1_000_001, -1_000_001, 0])
    }

    fn bound(&mut self) -> i32 {
        self.number_or([
            1_000_000_000,
            -1_000_000_000,
            1_000_000_001,
            i32::MIN,
            i32::MAX,
        ])
    }

    // A few of everything.
    fn small_extent(&mut self) -> Extent {
        Extent {
            spots: self.below(8).wrapping_add(1),
            first: 20,
            rules: self.below(5),
            terms: self.below(4).wrapping_add(1),
            prices: self.below(6),
        }
    }

    // The same, now and then with something at its limit, one below it or one beyond it.
    fn extent(&mut self) -> Extent {
        let few = self.small_extent();
        let shift = self.below(3);
        match self.below(20) {
            0 => Extent {
                spots: shift.wrapping_add(31),
                ..few
            },
            1 => Extent {
                spots: 7,
                rules: 1,
                terms: shift.wrapping_add(63),
                prices: 0,
                ..few
            },
            2 => {
                let place = self.below(5) as usize;
                let (rules, terms) = PLACES.get(place).copied().unwrap_or((8, 64));
                Extent {
                    spots: 7,
                    first: 0,
                    rules,
                    terms,
                    ..few
                }
            }
            3 => Extent {
                spots: 8,
                prices: shift.wrapping_add(127),
                ..few
            },
            4 => Extent {
                first: 64,
                rules: shift.wrapping_add(1),
                ..few
            },
            5 => Extent { spots: 12, ..few },
            _ => few,
        }
    }

    // A group of declared spots, of which it has up to 12 where there are so many.
    fn wide_group(&mut self, spots: u32) -> u32 {
        let group = self.group(spots);
        if spots > 11 && self.below(4) == 0 {
            NINE_SPOTS.wrapping_shl(self.below(4)) | group
        } else {
            group
        }
    }

    // Groups that differ. Where they are many they are those with the numbers from 1 on.
    fn groups(&mut self, heap: Global, spots: u32, count: u32) -> Result<Vec<u32>, AllocError> {
        let mut groups: Vec<u32> = Vec::new(heap);
        for number in 1..=count {
            let group = if count > 6 {
                number
            } else {
                self.wide_group(spots)
            };
            if groups.iter().all(|other| *other != group) {
                groups.push(group)?;
            }
        }
        Ok(groups)
    }

    // Coefficients or amounts with groups that differ.
    fn products(
        &mut self,
        heap: Global,
        spots: u32,
        count: u32,
    ) -> Result<Vec<Product>, AllocError> {
        let mut products = Vec::new(heap);
        for group in self.groups(heap, spots, count)?.iter() {
            products.push((self.coefficient(), *group))?;
        }
        Ok(products)
    }

    // How far the number of a rule is above that of the rule before. Many rules leave no number out.
    fn step(&mut self, extent: Extent) -> u32 {
        if extent.rules > 8 {
            1
        } else {
            self.below(3).wrapping_add(1)
        }
    }

    // Rules with rising numbers.
    fn rules(&mut self, heap: Global, extent: Extent) -> Result<Vec<PlainRule>, AllocError> {
        let mut rules = Vec::new(heap);
        let mut number = self.below(extent.first.wrapping_add(1));
        for _ in 0..extent.rules {
            rules.push(PlainRule {
                number: u8::try_from(number).unwrap_or(u8::MAX),
                relation: u8::try_from(self.below(3)).unwrap_or(0),
                bound: self.bound(),
                terms: self.products(heap, extent.spots, extent.terms)?,
            })?;
            number = number.wrapping_add(self.step(extent));
        }
        Ok(rules)
    }

    // A sheet, which a file may tell as it is.
    pub fn plain_sheet(&mut self, heap: Global) -> Result<PlainSheet, AllocError> {
        let extent = self.extent();
        let mut houses = Vec::new(heap);
        for _ in 0..extent.spots {
            houses.push(self.below(u32::MAX))?;
        }
        Ok(PlainSheet {
            houses,
            rules: self.rules(heap, extent)?,
            prices: self.products(heap, extent.spots, extent.prices)?,
        })
    }
}
