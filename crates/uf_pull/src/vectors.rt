//! Rows of pulls and of answers that the definitions decide.
ghost use Rattle.std.specs.Prelude.{◌≡◌, ◌++◌, [], ◌∷◌, Ok, Err, codes, take};
ghost use Rattle.sha2.specs.Sha256.{sha256};
ghost use Rattle.uf_pull.specs.Due.{due, due_text};
ghost use Rattle.uf_pull.specs.Frames.{serve_text};
ghost use Rattle.uf_pull.specs.Vectors.{asked_so, asks_hello, empty_cid, hello_cid, hello_frame, holding_hello};
ghost use Rattle.uf_pull.specs.Vectors.{lacking_frame, nothing, wrong_frame};
ghost use Rattle.uf_pull.specs.Wants.{asked_in};
ghost use Rattle.uf_pull.specs.declared.fault.PullFault.TheVariants.{Bad, Ended, Lacks};
ghost use Rattle.uf_pull.specs.declared.fault.ServeFault.TheVariants.{BadWant, TooLong};

/// The block `hello world` is pulled by one want and one frame of 49 bytes; a frame with other bytes is dropped.
pub fn hello_world_is_pulled()
    ensures pulled { due sha256 9 hello_cid nothing hello_frame
        ≡ asks_hello ((hello_cid, codes "hello world") ∷ []) (Ok tt) 49 }
    ensures text { due_text (due sha256 9 hello_cid nothing hello_frame)
        ≡ codes "want bafkreifzjut3te2nhyekklss27nh3k72ysco7y32koao5eei66wof36n5e\ndone\n" }
    ensures again { due sha256 9 hello_cid nothing (wrong_frame ++ hello_frame)
        ≡ asks_hello ((hello_cid, codes "hello world") ∷ []) (Ok tt) 98 }
{}

/// A peer lacks the block, stops, breaks off inside a frame, or deviates from the form.
pub fn pulls_are_refused()
    ensures lacks { due sha256 9 hello_cid nothing (lacking_frame hello_cid)
        ≡ asks_hello [] (Err (Lacks hello_cid)) 37 }
    ensures none { due sha256 9 hello_cid nothing [] ≡ asks_hello [] (Err (Ended hello_cid)) 0 }
    ensures part { due sha256 9 hello_cid nothing (take 48 hello_frame) ≡ asks_hello [] (Err (Ended hello_cid)) 0 }
    ensures form { due sha256 9 hello_cid nothing (7 ∷ []) ≡ asks_hello [] (Err (Bad 0)) 0 }
    ensures later { due sha256 9 hello_cid nothing (lacking_frame empty_cid ++ 7 ∷ [])
        ≡ asks_hello [] (Err (Bad 37)) 37 }
{}

/// Each want is answered by one frame, in order.
pub fn wants_are_answered()
    ensures frames { serve_text holding_hello (hello_cid ∷ empty_cid ∷ []) ≡ hello_frame ++ lacking_frame empty_cid }
    ensures done { asked_in 1000 (codes "want bafkreifzjut3te2nhyekklss27nh3k72ysco7y32koao5eei66wof36n5e\ndone\nx")
        ≡ asked_so (hello_cid ∷ []) (Ok tt) }
    ensures end { asked_in 1000 (codes "want bafkreifzjut3te2nhyekklss27nh3k72ysco7y32koao5eei66wof36n5e")
        ≡ asked_so (hello_cid ∷ []) (Ok tt) }
    ensures bad { asked_in 1000 (codes "give HW\n") ≡ asked_so [] (Err (BadWant 1)) }
    ensures long { asked_in 3 (codes "done\n") ≡ asked_so [] (Err TooLong) }
{}
