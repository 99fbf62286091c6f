ghost use Rattle.std.specs.Prelude.{◌≡◌, ℕ, List, ◌+◌, ◌≤◌, ◌<◌, ◌^◌, ◌↔◌, IsTrue, IfOk, length, min};
ghost use Rattle.std.specs.Option.{option_copied};
ghost use Rattle.packet_model.specs.declared.layout.TheConstants.{SET_END};
ghost use Rattle.body_model.specs.Format.{Format, IsExtent, IsFormat};
ghost use Rattle.lower_tree.specs.Opening.{AnswersOpening, opening_of};

use crate::{BadCause, Steps};
use body_model::Opened;
use packet_model::EXTENT_SIZE;
use std::alloc::{AllocError, Global};
use std::sync::ledger::Ledger;

/// The octets of one extent.
pub type Extent = [u8; EXTENT_SIZE as usize];

/// Why a file isn't opened.
#[derive(Clone, Copy, Debug, PartialEq, Eq)]
pub enum OpenFault {
    /// The file is bad, for this cause.
    Bad(BadCause),
    /// Memory ran out.
    Memory,
}

/// How the octets of files stand in bodies, extent by extent behind metadata.
pub trait BodyFormat {
    /// The key of a file. It has to be spent.
    type Key;

    /// A key that is lent. It has to be spent.
    type Loan;

    /// What it means.
    ghost rules: { Self → Format Self.Key };

    /// The loan of a key.
    ghost loan_of: { Self → Self.Key → Self.Loan };

    /// What a lent key makes of an extent.
    ghost plain_lent: { Self.Loan → ℕ → List ℕ → List ℕ };

    /// Reads the metadata of a file: of its attribute, or else of `head`, the first octets of its body of `len`, 4,096 or all. `Bad`
    /// comes with the first cause that holds.
    fn open<L: Ledger>(
        &self,
        alloc: Global,
        head: &[u8],
        attribute: Option<&[u8]>,
        len: u64,
        steps: &mut Steps<L>,
    ) -> Result<Opened<Self::Key>, OpenFault>
        requires { length head.now ≡ min len SET_END }
        ensures opens { AnswersOpening result (opening_of (rules self.now) head.now (option_copied attribute.entry) len) }
        ensures steps { (steps.old ≤ steps.new) × (steps.new ≤ steps.old + 2) };

    /// The metadata of a new file, by its node's number.
    fn new_file<L: Ledger>(
        &self,
        alloc: Global,
        node: u32,
        steps: &mut Steps<L>,
    ) -> Result<Opened<Self::Key>, AllocError>
        ensures new { IfOk result (λ o. o ≡ (rules self.now).new_file node) }
        ensures steps { (steps.old ≤ steps.new) × (steps.new ≤ steps.old + 2) };

    /// Encrypts the extent with this number, below 10^15, in place.
    fn seal<L: Ledger>(
        &self,
        key: &Self::Key,
        number: u64,
        extent: &mut Extent,
        steps: &mut Steps<L>,
    )
        requires { number < 10 ^ 15 }
        ensures sealed { (rules self.now).plain key.now number extent.new ≡ extent.old }
        ensures extent { IsExtent extent.new }
        ensures steps { steps.new ≡ steps.old + 256 };

    /// Decrypts the extent with this number, below 10^15, in place.
    fn unseal<L: Ledger>(
        &self,
        key: &Self::Key,
        number: u64,
        extent: &mut Extent,
        steps: &mut Steps<L>,
    )
        requires { number < 10 ^ 15 }
        ensures unsealed { extent.new ≡ (rules self.now).plain key.now number extent.old }
        ensures extent { IsExtent extent.new }
        ensures steps { steps.new ≡ steps.old + 256 };

    /// A key to work with elsewhere.
    fn lend(&self, key: &Self::Key) -> Self::Loan
        ensures { result ≡ loan_of self.now key.now };

    /// Whether a loan is that of this key.
    fn same(&self, key: &Self::Key, loan: &Self::Loan) -> bool
        ensures { IsTrue result ↔ (loan.now ≡ loan_of self.now key.now) };

    /// Decrypts the extent with this number, below 10^15, in place, with a key that is lent.
    fn unseal_lent(loan: &Self::Loan, number: u64, extent: &mut Extent)
        requires { number < 10 ^ 15 }
        ensures unsealed { extent.new ≡ plain_lent loan.now number extent.old }
        ensures extent { IsExtent extent.new };

    /// Spends a loan.
    fn end_loan(loan: Self::Loan);

    /// Spends a key.
    fn end_key(&self, key: Self::Key);

    ghost lawful: { (f : Self) → IsFormat (rules f) };

    ghost lent: { (f : Self) (key : Self.Key) (number : ℕ) (extent : List ℕ) → plain_lent (loan_of f key) number extent ≡ (rules f).plain key number extent };
}
