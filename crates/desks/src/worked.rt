//! The requests in some inputs, computed by the definition.
ghost use Rattle.desks.specs.Requests.{requests_in, whole_lines};
ghost use Rattle.std.specs.Prelude.{◌≡◌, ◌++◌, [], ◌∷◌, None, Some, codes, replicate};

// Lines. A line without bytes is no request, and the last line may lack its line feed.
fn lines()
    ensures one { requests_in (codes "MARGIN\n") ≡ Some (codes "MARGIN") ∷ [] }
    ensures empty { requests_in (codes "\n\nA\n\nB\n\n") ≡ Some (codes "A") ∷ Some (codes "B") ∷ [] }
    ensures last { requests_in (codes "A\nB") ≡ Some (codes "A") ∷ Some (codes "B") ∷ [] }
    ensures nothing { requests_in [] ≡ [] }
    ensures whole { whole_lines (codes "A\nB\nC") ≡ codes "A\nB\n" }
{}

// One carriage return at the end of a line is not part of the request. (A carriage return is 13, and a line feed 10.)
fn carriage_returns()
    ensures windows { requests_in (65 ∷ 13 ∷ 10 ∷ 66 ∷ 13 ∷ 10 ∷ []) ≡ Some (65 ∷ []) ∷ Some (66 ∷ []) ∷ [] }
    ensures alone { requests_in (13 ∷ 10 ∷ 65 ∷ 10 ∷ []) ≡ Some (65 ∷ []) ∷ [] }
    ensures last { requests_in (65 ∷ 13 ∷ []) ≡ Some (65 ∷ []) ∷ [] }
    ensures two { requests_in (65 ∷ 13 ∷ 13 ∷ 10 ∷ []) ≡ Some (65 ∷ 13 ∷ []) ∷ [] }
    ensures within { requests_in (65 ∷ 13 ∷ 66 ∷ 10 ∷ []) ≡ Some (65 ∷ 13 ∷ 66 ∷ []) ∷ [] }
    ensures both { requests_in (13 ∷ 13 ∷ 10 ∷ []) ≡ Some (13 ∷ []) ∷ [] }
{}

// A request has at most 4096 bytes, not counting a carriage return.
fn longest()
    ensures longest { requests_in (replicate 4096 65 ++ 10 ∷ []) ≡ Some (replicate 4096 65) ∷ [] }
    ensures with_return { requests_in (replicate 4096 65 ++ 13 ∷ 10 ∷ []) ≡ Some (replicate 4096 65) ∷ [] }
    ensures last { requests_in (replicate 4096 65) ≡ Some (replicate 4096 65) ∷ [] }
{}

// A longer line is one request that is not kept.
fn too_long()
    ensures longer { requests_in (replicate 4097 65 ++ 10 ∷ 66 ∷ []) ≡ None ∷ Some (66 ∷ []) ∷ [] }
    ensures with_return { requests_in (replicate 4097 65 ++ 13 ∷ []) ≡ None ∷ [] }
    ensures two_returns { requests_in (replicate 4096 65 ++ 13 ∷ 13 ∷ 10 ∷ []) ≡ None ∷ [] }
{}
