// What the tests share: how a table is converted or refused.
use lineup::{Refusal, to_terms, to_values};
use std::alloc::Global;
use std::process::Abort;
use std::test::Fail;

// What a test checks tables with: the handle that stops it, and the heap for the tables.
#[derive(Drop)]
pub struct Checks<'a, R> {
    pub rt: &'a R,
    pub heap: Global,
}

impl<R: Abort> Checks<'_, R> {
    // The conversion turns the one table into the other.
    pub fn turns<C>(&self, convert: C, from: &[i64], to: &[i64]) -> Result<(), Fail>
    where
        C: Fn(&mut [i64]) -> Result<(), Refusal>,
        requires { C.IsAlwaysCallable convert }
    {
        let mut table = from.to_vec(self.heap)?;
        assert_eq!(self.rt; convert(&mut table), Ok(()));
        assert_eq!(self.rt; table.as_slice(), to);
        Ok(())
    }

    // The one table is of terms, the other of their values.
    pub fn belong(&self, terms: &[i64], values: &[i64]) -> Result<(), Fail> {
        self.turns(to_values, terms, values)?;
        self.turns(to_terms, values, terms)
    }

    // The conversion, with the one back after it, leaves the table as it was.
    fn turns_back<C, B>(&self, convert: C, back: B, from: &[i64]) -> Result<(), Fail>
    where
        C: Fn(&mut [i64]) -> Result<(), Refusal>,
        B: Fn(&mut [i64]) -> Result<(), Refusal>,
        requires convert { C.IsAlwaysCallable convert }
        requires back { B.IsAlwaysCallable back }
    {
        let mut table = from.to_vec(self.heap)?;
        assert_eq!(self.rt; convert(&mut table), Ok(()));
        assert_eq!(self.rt; back(&mut table), Ok(()));
        assert_eq!(self.rt; table.as_slice(), from);
        Ok(())
    }

    // Either conversion, with the other one after it, leaves the table as it was.
    pub fn restored(&self, from: &[i64]) -> Result<(), Fail> {
        self.turns_back(to_values, to_terms, from)?;
        self.turns_back(to_terms, to_values, from)
    }

    // The conversion refuses the table and leaves it as it was.
    fn refuses<C>(&self, convert: C, from: &[i64], refusal: Refusal) -> Result<(), Fail>
    where
        C: Fn(&mut [i64]) -> Result<(), Refusal>,
        requires { C.IsAlwaysCallable convert }
    {
        let mut table = from.to_vec(self.heap)?;
        assert_eq!(self.rt; convert(&mut table), Err(refusal));
        assert_eq!(self.rt; table.as_slice(), from);
        Ok(())
    }

    // Both conversions refuse the table and leave it as it was.
    pub fn refused(&self, from: &[i64], refusal: Refusal) -> Result<(), Fail> {
        self.refuses(to_values, from, refusal)?;
        self.refuses(to_terms, from, refusal)
    }
}
