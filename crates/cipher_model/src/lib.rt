//! AES (FIPS 197), and the modes CBC and ECB (NIST SP 800-38A), as definitions in `specs/`.
//!
//! The functions here do nothing. Each stands for what is proved of the definitions, which its contract states.
#![tactic(auto)]

ghost use Rattle.std.specs.Prelude.{List, ℕ};
ghost use Rattle.cipher_model.specs.Examples.{Aes128Example, Aes256Example, CbcExample, CipherExample, EcbExample};
ghost use Rattle.cipher_model.specs.Laws.{AreInverse, CbcHasOnePlainText, EcbHasOnePlainText, HasInverses};

/// The definitions give the standards' worked examples: FIPS 197, appendix B, C.1 and C.3, and SP 800-38A, F.1.1 and F.2.1.
pub fn worked_examples()
    ensures cipher { CipherExample }
    ensures aes_128 { Aes128Example }
    ensures aes_256 { Aes256Example }
    ensures ecb { EcbExample }
    ensures cbc { CbcExample }
{}

/// The inverse in the field, from which the S-box is made, is one (FIPS 197, 4.2).
pub fn field_inverse()
    ensures { HasInverses }
{}

/// The cipher and the inverse cipher undo each other on every block under every key (FIPS 197, 5.3).
pub fn inverse_cipher()
    ensures { (k : List ℕ) → AreInverse k }
{}

/// For each key and initial block a cipher text of whole blocks has exactly one plain text (SP 800-38A, 6.1 and 6.2).
pub fn one_plain_text()
    ensures cbc { CbcHasOnePlainText }
    ensures ecb { EcbHasOnePlainText }
{}
