ghost use Rattle.std.specs.Prelude.{◌≡◌, IsTrue, IfOk};
ghost use Rattle.content_model.specs.Ecryptfs.{are_eight_octets};

use crate::extent::{EXTENT_BLOCKS, seal_extent, unseal_extent};
use crate::extents::are_octets;
use crate::new_file::{new_flags, new_start};
use crate::opening::open_in;
use file_header::{NewMeta, write_header};
use lower_model::Items;
use lower_tree::{BodyFormat, Extent, OpenFault, Opened, Steps};
use packet_model::MetaPlace;
use packet_set::{OneKeyRing, Ring, wrap};
use secret_key::{Fek, FekLoan, Kek, KeySource};
use std::alloc::{AllocError, Global};
use std::marker::Model;
use std::sync::ledger::Ledger;

/// eCryptfs as a format of bodies, as a mount reads and writes files. It has to be ended. Contracts see the mount.
pub struct Ecryptfs {
    ring: OneKeyRing,
    salt: [u8; 8],
    source: KeySource,
    names_coded: bool,
    meta_place: MetaPlace,
    ghost signature_fits: { IsTrue (are_eight_octets ring.signature) },
    ghost salt_fits: { IsTrue (are_eight_octets salt) },
}

impl Model for Ecryptfs {
    ghost use Rattle.content_model.specs.Ecryptfs.{FormatMount};

    ghost Value = { FormatMount };

    ghost view = { λ e. record {
      mount = record { key = e.ring; salt = e.salt; random = e.source; names_coded = e.names_coded; meta_place = e.meta_place };
      signature = e.signature_fits;
      salt = e.salt_fits;
    } };
}

impl Ecryptfs {
    ghost use Rattle.packet_model.specs.Metadata.{new_metadata};
    ghost use Rattle.content_model.specs.Ecryptfs.{header_for, new_key};

    /// The format of a mount with this key-encryption key, its signature and the salt of its passphrase, whose new files have keys of
    /// this source and metadata in this place.
    pub fn new(
        kek: Kek,
        signature: [u8; 8],
        salt: [u8; 8],
        source: KeySource,
        names_coded: bool,
        meta_place: MetaPlace,
    ) -> Ecryptfs
        ensures { result.mount ≡ record { key = record { signature = signature; key = kek }; salt = salt; random = source; names_coded = names_coded; meta_place = meta_place } }
    {
        are_octets(&signature);
        are_octets(&salt);
        Ecryptfs {
            ring: OneKeyRing::new(kek, signature),
            salt,
            source,
            names_coded,
            meta_place,
        }
    }

    /// Spends the key-encryption key.
    pub fn end(self) {
        let Ecryptfs {
            ring,
            salt: _,
            source: _,
            names_coded: _,
            meta_place: _,
        } = self;
        ring.end();
    }

    // The metadata of a new file with this key.
    fn new_metadata(&self, alloc: Global, node: u32, fek: &Fek) -> Result<Items<u8>, AllocError>
        requires { fek.now ≡ new_key self.now.mount node }
        ensures { IfOk result (λ metadata. metadata ≡ new_metadata self.now.mount.meta_place (header_for self.now.mount node)) }
    {
        let meta = NewMeta {
            size: 0,
            m1: self.source.mark(node),
            flags: new_flags(self.meta_place, self.names_coded),
            salt: self.salt,
            wrapped: wrap(self.ring.kek(), fek),
            signature: self.ring.signature(),
            meta_place: self.meta_place,
        };
        Ok(Items::from_vec(write_header(alloc, &meta)?))
    }
}

impl BodyFormat for Ecryptfs {
    ghost use Rattle.std.specs.Prelude.{refl};
    ghost use Rattle.content_model.specs.Extents.{plain_extent};
    ghost use Rattle.content_model.specs.Ecryptfs.{ecryptfs};
    ghost use Rattle.format_laws.proofs.EightOctets.{is_mount};
    ghost use Rattle.format_laws.proofs.FormatLaws.{ecryptfs_is_format};

    type Key = Fek;

    type Loan = FekLoan;

    ghost rules = { λ e. ecryptfs e.mount };

    ghost loan_of = { λ e key. key };

    ghost plain_lent = { plain_extent };

    ghost lawful = { λ e. ecryptfs_is_format e.mount (is_mount e) };

    ghost lent = { λ e key number extent. refl };

    fn open<L: Ledger>(
        &self,
        alloc: Global,
        head: &[u8],
        attribute: Option<&[u8]>,
        len: u64,
        steps: &mut Steps<L>,
    ) -> Result<Opened<Fek>, OpenFault> {
        steps.tick(1);
        match attribute {
            Some(octets) => open_in(alloc, octets, MetaPlace::Attribute, len, &self.ring),
            None => open_in(alloc, head, MetaPlace::Header, len, &self.ring),
        }
    }

    fn new_file<L: Ledger>(
        &self,
        alloc: Global,
        node: u32,
        steps: &mut Steps<L>,
    ) -> Result<Opened<Fek>, AllocError> {
        steps.tick(1);
        let fek = self.source.fek(node);
        match self.new_metadata(alloc, node, &fek) {
            Ok(metadata) => Ok(Opened {
                key: fek,
                size: 0,
                data_start: new_start(self.meta_place),
                meta_place: self.meta_place,
                metadata,
            }),
            Err(error) => {
                fek.spend();
                Err(error)
            }
        }
    }

    fn seal<L: Ledger>(&self, key: &Fek, number: u64, extent: &mut Extent, steps: &mut Steps<L>) {
        steps.tick(EXTENT_BLOCKS);
        seal_extent(key.octets(), number, extent);
    }

    fn unseal<L: Ledger>(&self, key: &Fek, number: u64, extent: &mut Extent, steps: &mut Steps<L>) {
        steps.tick(EXTENT_BLOCKS);
        unseal_extent(key.octets(), number, extent);
    }

    fn lend(&self, key: &Fek) -> FekLoan {
        key.loan()
    }

    fn same(&self, key: &Fek, loan: &FekLoan) -> bool {
        key.octets() == loan.octets()
    }

    fn unseal_lent(loan: &FekLoan, number: u64, extent: &mut Extent) {
        unseal_extent(loan.octets(), number, extent);
    }

    fn end_loan(loan: FekLoan) {
        loan.spend();
    }

    fn end_key(&self, key: Fek) {
        key.spend();
    }
}
