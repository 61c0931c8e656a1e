//! The definition of the hash, held against public vectors.
ghost use Rattle.std.specs.Prelude.{◌≡◌, codes, []};
ghost use Rattle.uf_murmur.specs.Murmur.{murmur3};

/// The hash of no bytes.
pub fn the_hash_of_nothing()
    ensures { murmur3 [] ≡ 0 }
{}

/// The hash of a text that is shorter than a block.
pub fn the_hash_of_hello()
    ensures { murmur3 (codes "hello") ≡ 0xcbd8a7b341bd9b02 }
{}

/// The hash of a text of two blocks and a rest.
pub fn the_hash_of_the_quick_brown_fox()
    ensures { murmur3 (codes "The quick brown fox jumps over the lazy dog") ≡ 0xe34bbc7bbc071b6c }
{}
