// The reader of a file: record by record, into a sheet of its own.
ghost use Rattle.std.specs.Prelude.{◌≡◌, ◌+◌, ◌<◌, ◌≤◌, ◌≢◌, true, false, ◌||◌, [], length, MatchResult, nat_lt, unsigned_abs};
ghost use Rattle.terms.specs.Refusals.{uppermost, answered};
ghost use Rattle.terms.specs.Tests.{any};
ghost use Rattle.sheet.specs.Limits.{most_amount};
ghost use Rattle.sheet.specs.Ledger.{is_for, is_zero};
ghost use Rattle.sheet.specs.History.{draft_ledger};
ghost use Rattle.sheet_file.specs.declared.kinds.Kind.TheVariants as kinds;
ghost use Rattle.sheet_file.specs.declared.reader.Stage.TheVariants as stages;
ghost use Rattle.sheet_file.specs.Faults as faults;
ghost use Rattle.sheet_file.specs.Records as at;
ghost use Rattle.sheet_file.specs.Reading.{reading, price_record_rows};
ghost use Rattle.sheet_file.specs.ReadingSteps.{behind, rest, outcome, closed_outcome, late_in, Settled, Between, IsAt, is_cut, Takes};

use crate::faults::{FileFault, FileRefusal};
use crate::kinds::Kind;
use arrayvec::ArrayVec;
use sheet::limits::{MOST_AMOUNT, MOST_PRICES};
use sheet::questions::{prices_of, spot_count};
use sheet::{Draft, Price};
use terms::groups::is_beyond;
use terms::limits::{MOST_NAMED, MOST_TERMS};
use terms::{Refusal, Term};

// How far reading has come. In the stage of rules the latest one stands open, until what follows its terms is met.
#[derive(Clone, Copy, PartialEq, Eq)]
pub(crate) enum Stage {
    Spots,
    Rule,
    Prices,
}

// The latest rule with its terms so far, which is posted once no term follows.
#[derive(Drop)]
pub(crate) struct OpenRule {
    place: usize,
    number: u8,
    relation: u8,
    bound: i32,
    terms: ArrayVec<Term, MOST_TERMS>,
}

// The bytes, the place of the next record, and the sheet that those before it make.
#[derive(Drop)]
pub(crate) struct Reader<'a> {
    bytes: &'a [u8],
    pub(crate) place: usize,
    stage: Stage,
    rule: OpenRule,
    pub(crate) draft: Draft,
}

// The file itself is at fault at a place.
fn flaw(place: usize) -> FileRefusal
    ensures { result ≡ faults.flaw place }
{
    FileRefusal::BadFile {
        place,
        fault: FileFault::Flaw,
    }
}

// A refusal fits what the record at a place adds to the sheet.
fn cause(place: usize, refusal: Refusal) -> FileRefusal
    ensures { result ≡ faults.cause place refusal }
{
    FileRefusal::BadFile {
        place,
        fault: FileFault::Cause(refusal),
    }
}

// The four bytes at a place as a number, the highest first.
fn unsigned_at(bytes: &[u8], place: usize) -> u32
    requires { place + 4 ≤ length bytes.now }
    ensures { result ≡ at.unsigned_at bytes.now place }
{
    u32::from_be_bytes([
        bytes[place],
        bytes[place + 1],
        bytes[place + 2],
        bytes[place + 3],
    ])
}

// The same as a signed number, in two's complement.
fn signed_at(bytes: &[u8], place: usize) -> i32
    requires { place + 4 ≤ length bytes.now }
    ensures { result ≡ at.signed_at bytes.now place }
{
    unsigned_at(bytes, place).cast_signed()
}

// One of the draft's prices is the group's.
fn has_price(draft: &Draft, group: u32) -> bool
    ensures { result ≡ any (is_for group) (draft_ledger draft.now).contents.prices }
{
    prices_of(draft).iter().any(|price| price.group == group)
}

// An amount of 0, or too large.
fn is_out_of_range(amount: i32) -> bool
    ensures { result ≡ (is_zero amount || nat_lt most_amount (unsigned_abs amount)) }
{
    amount == 0 || amount.unsigned_abs() > MOST_AMOUNT
}

// Why a price cannot join a draft from a file. In a file each is one price more: an entry that is there is not changed, and none is dropped.
fn check_price(draft: &Draft, price: Price) -> Result<(), Refusal>
    ensures { result ≡ answered (uppermost (price_record_rows (draft_ledger draft.now) price)) tt }
{
    if is_beyond(price.group, spot_count(draft)) {
        return Err(Refusal::OffSheet);
    }
    if prices_of(draft).len() >= MOST_PRICES {
        return Err(Refusal::Full);
    }
    if has_price(draft, price.group) {
        return Err(Refusal::Twice);
    }
    if price.group == 0 {
        return Err(Refusal::Blank);
    }
    if is_out_of_range(price.amount) {
        return Err(Refusal::OutOfRange);
    }
    if price.group.count_ones() > MOST_NAMED {
        return Err(Refusal::Crowded);
    }
    Ok(())
}

impl<'a> Reader<'a> {
    pub(crate) fn new(bytes: &'a [u8]) -> Self
        ensures bytes { result.bytes.now ≡ bytes.now }
        ensures place { result.place ≡ 0 }
        ensures between { Between result.stage (draft_ledger result.draft) result.rule.number }
        ensures told { outcome result ≡ reading bytes.now }
    {
        Reader {
            bytes,
            place: 0,
            stage: Stage::Spots,
            rule: OpenRule {
                place: 0,
                number: 0,
                relation: 0,
                bound: 0,
                terms: ArrayVec::new(),
            },
            draft: Draft::new(),
        }
    }

    // The bytes behind the record's first one, where the end of the file does not cut the record.
    fn behind(&self, kind: Kind) -> Result<&'a [u8], FileRefusal>
        requires { self.now.place < length self.now.bytes.now }
        ensures { MatchResult result
            (λ body. (body.now ≡ behind self.now.bytes.now self.now.place) × (is_cut kind self.now ≡ false))
            (λ e. (e ≡ faults.flaw self.now.place) × (is_cut kind self.now ≡ true)) }
    {
        let behind = &self.bytes[self.place + 1..];
        if behind.len() < kind.body_length() {
            return Err(flaw(self.place));
        }
        Ok(behind)
    }

    fn take_spot(&mut self) -> Result<(), FileRefusal>
        requires at { IsAt kinds.Spot self.old }
        requires stage { self.old.stage ≡ stages.Spots }
        requires settled { Settled self.old.stage (draft_ledger self.old.draft) self.old.rule.number }
        ensures { Takes (closed_outcome self.old) self.old result self.new }
    {
        let body = self.behind(Kind::Spot)?;
        let house = unsigned_at(body, 0);
        if let Err(refusal) = self.draft.declare(house) {
            return Err(cause(self.place, refusal));
        }
        self.place += Kind::Spot.record_length();
        Ok(())
    }

    // A rule under this number comes too late: numbers are to rise.
    fn is_late(&self, number: u8) -> bool
        requires { self.now.stage ≢ stages.Prices }
        ensures { result ≡ late_in self.now.stage self.now.rule.number number }
    {
        self.stage == Stage::Rule && number <= self.rule.number
    }

    fn take_rule(&mut self) -> Result<(), FileRefusal>
        requires at { IsAt kinds.Rule self.old }
        requires stage { self.old.stage ≢ stages.Prices }
        requires settled { Settled self.old.stage (draft_ledger self.old.draft) self.old.rule.number }
        ensures { Takes (closed_outcome self.old) self.old result self.new }
    {
        let body = self.behind(Kind::Rule)?;
        let number = body[0];
        if self.is_late(number) {
            return Err(flaw(self.place));
        }
        self.rule = OpenRule {
            place: self.place,
            number,
            relation: body[1],
            bound: signed_at(body, 2),
            terms: ArrayVec::new(),
        };
        self.stage = Stage::Rule;
        self.place += Kind::Rule.record_length();
        Ok(())
    }

    fn take_term(&mut self) -> Result<(), FileRefusal>
        requires at { IsAt kinds.Term self.old }
        requires stage { self.old.stage ≡ stages.Rule }
        requires between { Between self.old.stage (draft_ledger self.old.draft) self.old.rule.number }
        ensures { Takes (outcome self.old) self.old result self.new }
    {
        let body = self.behind(Kind::Term)?;
        if self.rule.terms.is_full() {
            return Err(cause(self.place, Refusal::Crowded));
        }
        self.rule.terms.push(Term {
            coefficient: signed_at(body, 0),
            group: unsigned_at(body, 4),
        });
        self.place += Kind::Term.record_length();
        Ok(())
    }

    fn take_price(&mut self) -> Result<(), FileRefusal>
        requires { IsAt kinds.Price self.old }
        ensures { Takes (closed_outcome self.old) self.old result self.new }
    {
        let body = self.behind(Kind::Price)?;
        let price = Price {
            amount: signed_at(body, 0),
            group: unsigned_at(body, 4),
        };
        if let Err(refusal) = check_price(&self.draft, price) {
            return Err(cause(self.place, refusal));
        }
        // The call refuses nothing that `check_price` lets pass.
        let _ = self.draft.price(price.amount, price.group);
        self.stage = Stage::Prices;
        self.place += Kind::Price.record_length();
        Ok(())
    }

    // Posts the open rule, where one stands open. A refusal is blamed at the rule's own place.
    pub(crate) fn close(&mut self) -> Result<(), FileRefusal>
        requires between { Between self.old.stage (draft_ledger self.old.draft) self.old.rule.number }
        requires whole { self.old.stage ≡ stages.Rule → (rest self.old).lead ≡ [] }
        ensures bytes { self.new.bytes.now ≡ self.old.bytes.now }
        ensures place { self.new.place ≡ self.old.place }
        ensures stage { self.new.stage ≡ self.old.stage }
        ensures rule { self.new.rule ≡ self.old.rule }
        ensures told { MatchResult result
            (λ _. (outcome self.old ≡ closed_outcome self.new)
            × Settled self.new.stage (draft_ledger self.new.draft) self.new.rule.number)
            (λ e. outcome self.old ≡ Err e) }
    {
        if self.stage == Stage::Rule {
            let rule = &self.rule;
            let terms = rule.terms.as_slice();
            if let Err(refusal) = self
                .draft
                .post(rule.number, rule.relation, rule.bound, terms)
            {
                return Err(cause(rule.place, refusal));
            }
        }
        Ok(())
    }

    // Takes the record at the place. A record that may not stand there is refused, after the open rule is posted.
    pub(crate) fn step(&mut self) -> Result<(), FileRefusal>
        requires inside { self.old.place < length self.old.bytes.now }
        requires between { Between self.old.stage (draft_ledger self.old.draft) self.old.rule.number }
        ensures { Takes (outcome self.old) self.old result self.new }
    {
        match (self.stage, Kind::of(self.bytes[self.place])) {
            (Stage::Rule, Some(Kind::Term)) => self.take_term(),
            (Stage::Spots, Some(Kind::Spot)) => self.take_spot(),
            (Stage::Spots | Stage::Rule, Some(Kind::Rule)) => {
                self.close()?;
                self.take_rule()
            }
            (_, Some(Kind::Price)) => {
                self.close()?;
                self.take_price()
            }
            _ => {
                self.close()?;
                Err(flaw(self.place))
            }
        }
    }
}
