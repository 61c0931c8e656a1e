//! Profiles that are accepted.
ghost use Rattle.std.specs.Prelude.{◌≡◌, false, IsTrue, MatchResult};
ghost use Rattle.uf_tree.specs.declared.profile.Profile.{Profile as TheProfile};
ghost use Rattle.uf_tree.specs.Profiles.{is_profile, most_bytes as most_bytes_of, usual};

use crate::Profile;

/// How many bytes a directory may stand for, each block counted where it is linked: the greatest Tsize of a plan.
/// Above it there is none (`TooBig`).
pub const MOST_TSIZE: u64 = 1 << 62;

/// The numbers are no profile: one of them is outside its range.
#[derive(Clone, Copy, Debug, PartialEq, Eq)]
pub struct BadProfile;

impl Profile {
    /// The profile of a greatest piece of 1 to 1048576 bytes, of 2 to 1024 links of a node and of a threshold of at
    /// most 1048576.
    pub fn new(chunk: u32, width: u32, threshold: u32) -> Result<Profile, BadProfile>
        ensures { let asked : TheProfile = record { chunk = chunk; width = width; threshold = threshold } in
            MatchResult result (λ p. (p ≡ asked) × IsTrue (is_profile asked)) (λ _. is_profile asked ≡ false) }
    {
        let profile = Profile {
            chunk,
            width,
            threshold,
        };
        if profile.is_accepted() {
            Ok(profile)
        } else {
            Err(BadProfile)
        }
    }

    /// The profile of Kubo's defaults: pieces of 262144 bytes, nodes of 174 links, and a threshold of 262144.
    pub fn usual() -> Profile
        ensures numbers { result ≡ usual }
        ensures accepted { IsTrue (is_profile result) }
    {
        Profile {
            chunk: 262144,
            width: 174,
            threshold: 262144,
        }
    }

    /// How many bytes a file has at most: 4194304 pieces.
    pub fn most_bytes(&self) -> u64
        ensures { result ≡ most_bytes_of self.now }
    {
        u64::from(self.chunk) * 4194304
    }

    /// Whether each number is in its range.
    pub fn is_accepted(&self) -> bool
        ensures { result ≡ is_profile self.now }
    {
        1 <= self.chunk
            && self.chunk <= 1048576
            && 2 <= self.width
            && self.width <= 1024
            && self.threshold <= 1048576
    }
}
