use crate::{BodyFormat, Extent, OpenFault, Opened, Steps};
use std::alloc::{AllocError, Global};
use std::sync::ledger::Ledger;

/// The format that is lent.
impl<'a, F: BodyFormat> BodyFormat for &'a F {
    type Key = F::Key;

    type Loan = F::Loan;

    ghost rules = { λ format. F.rules format.now };

    ghost loan_of = { λ format key. F.loan_of format.now key };

    ghost plain_lent = { λ loan number extent. F.plain_lent loan number extent };

    ghost lawful = { λ format. F.lawful format.now };

    ghost lent = { λ format key number extent. F.lent format.now key number extent };

    fn open<L: Ledger>(
        &self,
        alloc: Global,
        head: &[u8],
        attribute: Option<&[u8]>,
        len: u64,
        steps: &mut Steps<L>,
    ) -> Result<Opened<F::Key>, OpenFault> {
        (**self).open(alloc, head, attribute, len, steps)
    }

    fn new_file<L: Ledger>(
        &self,
        alloc: Global,
        node: u32,
        steps: &mut Steps<L>,
    ) -> Result<Opened<F::Key>, AllocError> {
        (**self).new_file(alloc, node, steps)
    }

    fn seal<L: Ledger>(
        &self,
        key: &F::Key,
        number: u64,
        extent: &mut Extent,
        steps: &mut Steps<L>,
    ) {
        (**self).seal(key, number, extent, steps)
    }

    fn unseal<L: Ledger>(
        &self,
        key: &F::Key,
        number: u64,
        extent: &mut Extent,
        steps: &mut Steps<L>,
    ) {
        (**self).unseal(key, number, extent, steps)
    }

    fn lend(&self, key: &F::Key) -> F::Loan {
        (**self).lend(key)
    }

    fn same(&self, key: &F::Key, loan: &F::Loan) -> bool {
        (**self).same(key, loan)
    }

    fn unseal_lent(loan: &F::Loan, number: u64, extent: &mut Extent) {
        F::unseal_lent(loan, number, extent)
    }

    fn end_loan(loan: F::Loan) {
        F::end_loan(loan)
    }

    fn end_key(&self, key: F::Key) {
        (**self).end_key(key)
    }
}
