//! What holds of CIDs and their spellings, whoever writes or reads them.
ghost use Rattle.std.specs.Prelude.{◌≡◌, ◌∷◌, ◌++◌, ℕ, List, drop, map};
ghost use Rattle.uf_cid.specs.Bytes.{IsBytes};
ghost use Rattle.uf_cid.specs.Cid.{cid_bytes, cid_text};
ghost use Rattle.uf_cid.specs.Read.{IsCid, cid_at, cid_of_text, raised};
ghost use Rattle.uf_cid.specs.declared.cid.Cid.{Cid as TheCid};

use crate::Cid;

/// A CID has a digest of 32 bytes.
pub fn cids_are_whole(cid: &Cid)
    ensures { IsCid cid.now }
{
    slices_hold_bytes(&cid.to_binary());
}

/// A slice holds numbers below 256.
pub fn slices_hold_bytes(bytes: &[u8])
    ensures { IsBytes bytes.now }
{}

/// What `to_binary` writes is read again, whatever bytes follow.
pub fn binary_is_read_again()
    ensures { (c : TheCid) → (rest : List ℕ) → IsCid c → cid_at (cid_bytes c ++ rest) ≡ Ok (c, 36) }
{}

/// A CID of 36 bytes has one spelling.
pub fn binary_is_one()
    ensures spelled { (c : TheCid) → (bytes : List ℕ) → cid_at bytes ≡ Ok (c, 36)
        → bytes ≡ cid_bytes c ++ drop 36 bytes }
    ensures whole { (c : TheCid) → (bytes : List ℕ) → (used : ℕ) → IsBytes bytes → cid_at bytes ≡ Ok (c, used)
        → IsCid c }
{}

/// What `text` writes is read again.
pub fn text_is_read_again()
    ensures { (c : TheCid) → IsCid c → cid_of_text (cid_text c) ≡ Ok c }
{}

/// A text in lower case and the same text in upper case are one CID.
pub fn cases_are_one()
    ensures { (c : TheCid) → (letters : List ℕ) → cid_of_text (98 ∷ letters) ≡ Ok c
        → cid_of_text (66 ∷ map raised letters) ≡ Ok c }
{}
