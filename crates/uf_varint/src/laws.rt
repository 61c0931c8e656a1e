//! What holds of the spellings, whoever writes or reads them.
ghost use Rattle.std.specs.List.{AllByRecursion};
ghost use Rattle.std.specs.Prelude.{◌≡◌, ◌↔◌, ◌<◌, ◌^◌, ◌%◌, ◌++◌, ◌∷◌, [], List, ℕ, Ok, length, take};
ghost use Rattle.uf_varint.specs.Fields.{Number, Bytes, Keyed, fields, key_then, number_at, number_field};
ghost use Rattle.uf_varint.specs.Fields.{content_field};
ghost use Rattle.uf_varint.specs.Varint.{varint, read_multi_of, read_proto_of, AreHigh};
ghost use Rattle.uf_varint.specs.declared.varint.Var.TheVariants.{Value, Short};

/// What was written is read again, whatever follows it. Numbers below 2^63 are those whose spelling has at most nine
/// bytes.
pub fn what_was_written_is_read()
    ensures proto { (n : ℕ) (rest : List ℕ) → n < 2 ^ 64 → read_proto_of (varint n ++ rest)
        ≡ Value n (length (varint n)) }
    ensures multi { (n : ℕ) (rest : List ℕ) → n < 2 ^ 63 → read_multi_of (varint n ++ rest)
        ≡ Value n (length (varint n)) }
{}

/// No spelling is a prefix of another of a different number: what stands after a spelling doesn't matter.
pub fn spellings_end_themselves()
    ensures proto { (bytes rest : List ℕ) (n used : ℕ) → read_proto_of bytes ≡ Value n used
        → read_proto_of (take used bytes ++ rest) ≡ Value n used }
    ensures multi { (bytes rest : List ℕ) (n used : ℕ) → read_multi_of bytes ≡ Value n used
        → read_multi_of (take used bytes ++ rest) ≡ Value n used }
{}

/// `read_multi` takes shortest spellings alone, of at most nine bytes.
pub fn multi_takes_the_shortest_alone()
    ensures { (bytes : List ℕ) (n used : ℕ) → AllByRecursion (λ b. b < 256) bytes → read_multi_of bytes ≡ Value n used
        → (take used bytes ≡ varint n) × (n < 2 ^ 63) }
{}

/// `read_proto` takes numbers below 2^64 alone.
pub fn proto_takes_64_bits()
    ensures { (bytes : List ℕ) → (n used : ℕ) → AllByRecursion (λ b. b < 256) bytes
        → read_proto_of bytes ≡ Value n used → n < 2 ^ 64 }
{}

/// More bytes are wanted exactly where there are fewer than ten, or nine, and each of them has the high bit.
pub fn more_bytes_are_wanted()
    ensures proto { (bytes : List ℕ) → (read_proto_of bytes ≡ Short) ↔ ((length bytes < 10) × AreHigh bytes) }
    ensures multi { (bytes : List ℕ) → (read_multi_of bytes ≡ Short) ↔ ((length bytes < 9) × AreHigh bytes) }
{}

/// Fields are cut from left to right: each but the last that can be cut is followed by those of the bytes after it.
pub fn fields_are_cut_in_order()
    ensures none { fields [] ≡ [] }
    ensures next { (b : ℕ) (bytes : List ℕ) → fields (b ∷ bytes) ≡ key_then fields (number_at (b ∷ bytes)) }
{}

/// A field that was written is cut again, whatever follows it.
pub fn what_was_written_is_cut()
    ensures number { (key n : ℕ) (rest : List ℕ) → key < 128 → key % 8 ≡ 0 → n < 2 ^ 64
        → fields (number_field key n ++ rest) ≡ Keyed key (Ok (Number n)) ∷ fields rest }
    ensures content { (key : ℕ) (bytes rest : List ℕ) → key < 128 → key % 8 ≡ 2 → length bytes < 2 ^ 64
        → fields (content_field key bytes ++ rest) ≡ Keyed key (Ok (Bytes bytes)) ∷ fields rest }
{}
