//! What is proved of eCryptfs as a format of bodies.
//!
//! The functions here do nothing. Each stands for what its contract states.
#![tactic(auto)]

ghost use Rattle.std.specs.Prelude.{◌≡◌, ◌↔◌, ◌∷◌, []};
ghost use Rattle.body_model.specs.LowerFile.{LowerFile, IsOfOctets};
ghost use Rattle.body_model.specs.Format.{IsFormat, content};
ghost use Rattle.body_model.specs.declared.content.Content.{Content};
ghost use Rattle.content_model.specs.Content.{IsContent};
ghost use Rattle.content_model.specs.Ecryptfs.{EcryptfsMount, IsMount, ecryptfs};

/// eCryptfs keeps the laws of a format, for every mount whose signature and salt are 8 octets each.
pub fn ecryptfs_is_a_format()
    ensures { (mount : EcryptfsMount) → IsMount mount → IsFormat (ecryptfs mount) }
{}

/// A file of octets decodes under the one key of a mount to what the mount's format says, and to nothing else.
pub fn content_is_that_of_the_format()
    ensures { (mount : EcryptfsMount) (file : LowerFile) (decoded : Content) → IsOfOctets file → IsContent (mount.key ∷ []) file.body file.attribute decoded ↔ (decoded ≡ content (ecryptfs mount) file) }
{}
