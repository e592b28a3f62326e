// Write: a locked sheet as bytes.
ghost use Rattle.std.specs.Prelude.{◌≡◌, ◌+◌, ◌≤◌, Some, length};
ghost use Rattle.terms.specs.Refusals.{Uppermost};
ghost use Rattle.sheet.specs.History.{locked_ledger, rule_seen};
ghost use Rattle.sheet_file.specs.Records.{SpotRecord, RuleRecord, TermRecord, PriceRecord, record_bytes};
ghost use Rattle.sheet_file.specs.Format.{file, most_file, head_of};
ghost use Rattle.sheet_file.specs.Laws.{HousesFit, ReadsBack};
ghost use Rattle.sheet_file.specs.WritingSteps.{Written, pair_bytes, spots_bytes, terms_bytes, prices_bytes, rule_bytes, rules_bytes};
ghost use Rattle.sheet_file.specs.Writing.{write_rows, write_answer, written_space};

use crate::kinds::Kind;
use crate::limits::MOST_FILE;
use sheet::limits::RULE_NUMBERS;
use sheet::{Locked, Price, Rule};
use terms::{Refusal, Term};

// The length of a sheet's file. What every sheet keeps bounds it.
fn file_length(sheet: &Locked) -> usize
    ensures { result ≡ length (file (locked_ledger sheet.now).contents) }
{
    sheet.keeps();
    let mut length = sheet.houses().len() * Kind::Spot.record_length()
        + sheet.prices().len() * Kind::Price.record_length();
    for number in 0..RULE_NUMBERS as u8 {
        if let Some(rule) = sheet.rule(number) {
            length += Kind::Rule.record_length() + rule.terms.len() * Kind::Term.record_length();
        }
    }
    length
}

// Writes bytes into the space from a place on, and answers the place behind them. So do all functions here whose name begins so.
fn put(space: &mut [u8], at: usize, bytes: &[u8]) -> usize
    requires { at + length bytes.now ≤ length space.old }
    ensures { Written at bytes.now space.old space.new result }
{
    let behind = at + bytes.len();
    space[at..behind].copy_from_slice(bytes);
    behind
}

fn put_spot(space: &mut [u8], at: usize, house: u32) -> usize
    requires { at + length (record_bytes (SpotRecord house)) ≤ length space.old }
    ensures { Written at (record_bytes (SpotRecord house)) space.old space.new result }
{
    let at = put(space, at, &[Kind::Spot.number()]);
    put(space, at, &house.to_be_bytes())
}

fn put_rule_head(space: &mut [u8], at: usize, number: u8, rule: &Rule) -> usize
    requires { at + length (record_bytes (RuleRecord (head_of number (rule_seen rule.now)))) ≤ length space.old }
    ensures { Written at (record_bytes (RuleRecord (head_of number (rule_seen rule.now)))) space.old space.new result }
{
    let at = put(
        space,
        at,
        &[Kind::Rule.number(), number, rule.relation.number()],
    );
    put(space, at, &rule.bound.to_be_bytes())
}

// A record of a signed number and a group.
fn put_pair(space: &mut [u8], at: usize, kind: Kind, number: i32, group: u32) -> usize
    requires { at + length (pair_bytes kind number group) ≤ length space.old }
    ensures { Written at (pair_bytes kind number group) space.old space.new result }
{
    let at = put(space, at, &[kind.number()]);
    let at = put(space, at, &number.to_be_bytes());
    put(space, at, &group.to_be_bytes())
}

fn put_term(space: &mut [u8], at: usize, term: &Term) -> usize
    requires { at + length (record_bytes (TermRecord term.now)) ≤ length space.old }
    ensures { Written at (record_bytes (TermRecord term.now)) space.old space.new result }
{
    put_pair(space, at, Kind::Term, term.coefficient, term.group)
}

fn put_price(space: &mut [u8], at: usize, price: &Price) -> usize
    requires { at + length (record_bytes (PriceRecord price.now)) ≤ length space.old }
    ensures { Written at (record_bytes (PriceRecord price.now)) space.old space.new result }
{
    put_pair(space, at, Kind::Price, price.amount, price.group)
}

fn put_spots(space: &mut [u8], at: usize, houses: &[u32]) -> usize
    requires { at + length (spots_bytes houses.now) ≤ length space.old }
    ensures { Written at (spots_bytes houses.now) space.old space.new result }
{
    let mut place = at;
    for house in houses {
        place = put_spot(space, place, *house);
    }
    place
}

fn put_terms(space: &mut [u8], at: usize, terms: &[Term]) -> usize
    requires { at + length (terms_bytes terms.now) ≤ length space.old }
    ensures { Written at (terms_bytes terms.now) space.old space.new result }
{
    let mut place = at;
    for term in terms {
        place = put_term(space, place, term);
    }
    place
}

// A rule, followed by its terms.
fn put_rule(space: &mut [u8], at: usize, number: u8, rule: &Rule) -> usize
    requires { at + length (rule_bytes number (Some (rule_seen rule.now))) ≤ length space.old }
    ensures { Written at (rule_bytes number (Some (rule_seen rule.now))) space.old space.new result }
{
    let at = put_rule_head(space, at, number, rule);
    put_terms(space, at, rule.terms)
}

// The live rules by rising number.
fn put_rules(space: &mut [u8], at: usize, sheet: &Locked) -> usize
    requires { at + length (rules_bytes (locked_ledger sheet.now).contents) ≤ length space.old }
    ensures { Written at (rules_bytes (locked_ledger sheet.now).contents) space.old space.new result }
{
    let mut place = at;
    for number in 0..RULE_NUMBERS as u8 {
        if let Some(rule) = sheet.rule(number) {
            place = put_rule(space, place, number, &rule);
        }
    }
    place
}

fn put_prices(space: &mut [u8], at: usize, prices: &[Price]) -> usize
    requires { at + length (prices_bytes prices.now) ≤ length space.old }
    ensures { Written at (prices_bytes prices.now) space.old space.new result }
{
    let mut place = at;
    for price in prices {
        place = put_price(space, place, price);
    }
    place
}

// House numbers are numbers of 32 bits. The call does nothing: its contract is the statement.
fn houses_fit(houses: &[u32])
    ensures { HousesFit houses.now }
{}

// Writes the sheet's file to the front of the space, and answers its length in bytes, which is at most 6,368. Beyond the length the space stays.
// Where the space is shorter than the file, the refusal is "short", and all of it stays.
pub fn write(sheet: &Locked, space: &mut [u8]) -> Result<usize, Refusal>
    ensures answer { result ≡ write_answer (locked_ledger sheet.now).contents (length space.old) }
    ensures space { space.new ≡ written_space (locked_ledger sheet.now).contents space.old }
    ensures uppermost { Uppermost (write_rows (locked_ledger sheet.now).contents (length space.old)) }
    ensures most { length (file (locked_ledger sheet.now).contents) ≤ most_file }
    ensures enough { MOST_FILE ≡ most_file }
    ensures same_contents { ReadsBack (locked_ledger sheet.now).contents }
{
    let houses = sheet.houses();
    houses_fit(houses);
    if space.len() < file_length(sheet) {
        return Err(Refusal::Short);
    }
    let at = put_spots(space, 0, houses);
    let at = put_rules(space, at, sheet);
    Ok(put_prices(space, at, sheet.prices()))
}
