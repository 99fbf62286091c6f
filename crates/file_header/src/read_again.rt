ghost use Rattle.std.specs.Prelude.{◌≡◌, ◌≤◌, ◌++◌, ℕ, List, length, drop, Ok, IsTrue};
ghost use Rattle.std.specs.Int.{w64, to_be_bytes};
ghost use Rattle.lower_model.specs.declared.meta_place.MetaPlace.{MetaPlace};
ghost use Rattle.lower_model.specs.declared.meta_place.MetaPlace.TheVariants.{Header, Attribute};
ghost use Rattle.packet_model.specs.declared.layout.TheConstants.{MAX_SIZE};
ghost use Rattle.packet_model.specs.PacketSet.{is_among};
ghost use Rattle.packet_model.specs.Metadata.{FileHeader, NewHeader, new_metadata, header_at};
ghost use Rattle.file_header.specs.NewMetadata.{IsNewHeader, header_of};

/// New metadata is read as exactly the values of which it was made: at the head of a body, whatever stands behind its 8,192
/// octets, and as an attribute, which has 81.
pub fn new_metadata_is_read_again()
    ensures header { (new : NewHeader) (ours : List (List ℕ)) (behind : List ℕ) → IsNewHeader new → IsTrue (is_among new.key.signature ours) → header_at Header ours (new_metadata Header new ++ behind) ≡ Ok (header_of new) }
    ensures attribute { (new : NewHeader) (ours : List (List ℕ)) → IsNewHeader new → IsTrue (is_among new.key.signature ours) → header_at Attribute ours (new_metadata Attribute new) ≡ Ok (header_of new) }
    ensures long { (new : NewHeader) → IsNewHeader new → (length (new_metadata Header new) ≡ 8192) × (length (new_metadata Attribute new) ≡ 81) }
{}

/// Metadata with another size written into it is read with that size, and else as before.
pub fn new_size_is_read_again()
    ensures { (meta_place : MetaPlace) (ours : List (List ℕ)) (octets : List ℕ) (header : FileHeader) (size : ℕ) → size ≤ MAX_SIZE → header_at meta_place ours octets ≡ Ok header → header_at meta_place ours (to_be_bytes w64 size ++ drop 8 octets) ≡ Ok (record header { size = size }) }
{}
