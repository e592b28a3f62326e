// Tables of terms and of values, converted into each other in place: the polynomial normal form of a pseudo-Boolean function.
ghost use Rattle.std.specs.Prelude.{◌≡◌, ◌+◌, length, None, Ok};
ghost use Rattle.std.specs.List.{AllByRecursion};
ghost use Rattle.terms.specs.Tests.{any};
ghost use Rattle.tables.specs.Conversion.{Near, converted_table, joined};
ghost use Rattle.tables.specs.Tables.{Operation, plus, minus, applied, tabulated, converted};
ghost use Rattle.tables.specs.Tables.{large, is_table_length, table_rows, table_refusal, table_answer, to_values_table, to_terms_table};
ghost use Rattle.terms.specs.Refusals.{Uppermost};
ghost use Rattle.tables.specs.NormalForm.{Restores, OnlyTerms};

use crate::limits::{MOST_ENTRIES, MOST_ENTRY};
use terms::Refusal;

// What a conversion makes of an entry of the upper half of a table and the entry of the lower half at the same place. A trait and no closure, so
// that the contracts of the functions below can name the operation.
trait Join {
    ghost operation: { Operation };

    fn join(upper: i64, lower: i64) -> i64
        requires upper { Near upper }
        requires lower { Near lower }
        ensures { result ≡ applied operation upper lower };
}

// To values: the entry below is added.
struct Sum;

impl Join for Sum {
    ghost operation = { plus };

    fn join(upper: i64, lower: i64) -> i64 {
        upper + lower
    }
}

// To terms: the entry below is subtracted.
struct Difference;

impl Join for Difference {
    ghost operation = { minus };

    fn join(upper: i64, lower: i64) -> i64 {
        upper - lower
    }
}

// Joins the upper half of a table, whose halves are converted, with the lower half.
fn join_halves<J: Join>(table: &mut [i64], half: usize)
    requires size { length table.old ≡ half + half }
    requires near { AllByRecursion Near table.old }
    ensures { table.new ≡ tabulated (half + half) (joined J.operation half table.old) }
{
    // By index is a required form (docs/DECISIONS.md).
    for i in 0..half {
        table[half + i] = J::join(table[half + i], table[i]);
    }
}

// Converts a table: each half as a table of its own, over one spot less, and then the join of both.
fn convert<J: Join>(table: &mut [i64])
    requires { table_refusal table.old ≡ None }
    ensures { table.new ≡ converted J.operation table.old }
{
    if table.len() == 1 {
        return;
    }
    let half = table.len() / 2;
    let (lower, upper) = table.split_at_mut(half);
    convert::<J>(lower);
    convert::<J>(upper);
    join_halves::<J>(table, half);
}

// Some entry is beyond what a conversion takes.
fn has_large(table: &[i64]) -> bool
    ensures { result ≡ any large table.now }
{
    table.iter().any(|entry| entry.unsigned_abs() > MOST_ENTRY)
}

// The length is that of a table over few enough spots.
fn is_table_length(length: usize) -> bool
    ensures { result ≡ is_table_length length }
{
    length.is_power_of_two() && length <= MOST_ENTRIES
}

// A table is refused where an entry is too large, or else where no table has its length.
fn check(table: &[i64]) -> Result<(), Refusal>
    ensures { result ≡ table_answer table.now }
{
    if has_large(table) {
        return Err(Refusal::OutOfRange);
    }
    if !is_table_length(table.len()) {
        return Err(Refusal::OddLength);
    }
    Ok(())
}

// Converts a table, or refuses it.
fn convert_checked<J: Join>(table: &mut [i64]) -> Result<(), Refusal>
    ensures answer { result ≡ table_answer table.old }
    ensures table { table.new ≡ converted_table J.operation table.old }
{
    check(table)?;
    convert::<J>(table);
    Ok(())
}

// Turns a table of terms into the table of their values. At index g the first has the coefficient of group g, at 0 the constant; the second
// has what all terms are worth together at line-up g.
pub fn to_values(table: &mut [i64]) -> Result<(), Refusal>
    ensures answer { result ≡ table_answer table.old }
    ensures table { table.new ≡ to_values_table table.old }
    ensures uppermost { Uppermost (table_rows table.old) }
    ensures restored { Restores to_values_table to_terms_table table.old }
{
    convert_checked::<Sum>(table)
}

// Turns a table of values into the one table of terms that has them.
pub fn to_terms(table: &mut [i64]) -> Result<(), Refusal>
    ensures answer { result ≡ table_answer table.old }
    ensures table { table.new ≡ to_terms_table table.old }
    ensures uppermost { Uppermost (table_rows table.old) }
    ensures restored { Restores to_terms_table to_values_table table.old }
    ensures only { result ≡ Ok tt → OnlyTerms table.old table.new }
{
    convert_checked::<Difference>(table)
}
