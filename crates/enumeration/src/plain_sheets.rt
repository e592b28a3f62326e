// Sheets in plain lists, and the records of their files: by functions of its own, on purpose, and nothing that the part computes.
use std::alloc::{AllocError, Global};

// A coefficient or an amount, and its group.
pub type Product = (i32, u32);

#[derive(Drop)]
pub struct PlainRule {
    pub number: u8,
    pub relation: u8,
    pub bound: i32,
    pub terms: Vec<Product>,
}

// A sheet, whose rules stand by rising number.
#[derive(Drop)]
pub struct PlainSheet {
    pub houses: Vec<u32>,
    pub rules: Vec<PlainRule>,
    pub prices: Vec<Product>,
}

// A number of either sign as one from 0 on, as two's complement has it.
fn complement(number: i32) -> u64 {
    let all = i64::from(number).wrapping_add(1 << 32) % (1 << 32);
    u64::try_from(all).unwrap_or(0)
}

// Puts the four bytes of a number behind others, the highest first.
fn put_number(bytes: &mut Vec<u8>, number: u64) -> Result<(), AllocError> {
    for divisor in [1u64 << 24, 1 << 16, 1 << 8, 1] {
        bytes.push((number / divisor % 256) as u8)?;
    }
    Ok(())
}

fn spot_record(heap: Global, house: u32) -> Result<Vec<u8>, AllocError> {
    let mut bytes = vec![in heap; 1]?;
    put_number(&mut bytes, u64::from(house))?;
    Ok(bytes)
}

fn rule_record(heap: Global, rule: &PlainRule) -> Result<Vec<u8>, AllocError> {
    let mut bytes = vec![in heap; 2, rule.number, rule.relation]?;
    put_number(&mut bytes, complement(rule.bound))?;
    Ok(bytes)
}

// The record of a term or a price, by its kind.
fn product_record(heap: Global, kind: u8, product: Product) -> Result<Vec<u8>, AllocError> {
    let (number, group) = product;
    let mut bytes = vec![in heap; kind]?;
    put_number(&mut bytes, complement(number))?;
    put_number(&mut bytes, u64::from(group))?;
    Ok(bytes)
}

impl PlainSheet {
    pub fn new(heap: Global) -> Self {
        PlainSheet {
            houses: Vec::new(heap),
            rules: Vec::new(heap),
            prices: Vec::new(heap),
        }
    }

    // How many terms its rules have.
    pub fn term_count(&self) -> usize {
        self.rules
            .iter()
            .fold(0usize, |count, rule| count.wrapping_add(rule.terms.len()))
    }

    // The records of its file, each as its bytes.
    pub fn records(&self, heap: Global) -> Result<Vec<Vec<u8>>, AllocError> {
        let mut records = Vec::new(heap);
        for house in &self.houses {
            records.push(spot_record(heap, *house)?)?;
        }
        for rule in &self.rules {
            records.push(rule_record(heap, rule)?)?;
            for term in &rule.terms {
                records.push(product_record(heap, 3, *term)?)?;
            }
        }
        for price in &self.prices {
            records.push(product_record(heap, 4, *price)?)?;
        }
        Ok(records)
    }
}
