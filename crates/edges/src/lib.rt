// The edges of a mesh as keys, and whether a mesh is closed: document 01, Room and Mesh rule. Whether each edge is used
// exactly twice is said of pairs of vertices; the sorted keys tell it in one pass. The definitions are in specs/.
#![tactic(auto)]

ghost use Rattle.std.specs.Prelude.{true, ◌≡◌, ◌≤◌, length};
ghost use Rattle.keys.specs.Sorting.{sorted};
ghost use Rattle.lent.specs.Over.{over};
ghost use Rattle.mesh_questions.specs.Faces.{faces};
ghost use Rattle.mesh_questions.specs.MeshQuestions.{ends_fit};
ghost use Rattle.edges.specs.Edges.{edge_key, face_keys, edge_keys, closed};
ghost use Rattle.edges.specs.steps.Below.{Below};
ghost use Rattle.edges.specs.steps.Pairs.{in_pairs, closed_keys};

// The key of an edge: smaller vertex × 65,536 + larger.
#[tactic(auto, using(crate::specs::laws::EdgeLaws::edge_key_min))]
fn edge_key(a: u32, b: u32) -> u64
    ensures { result ≡ edge_key a b }
{
    u64::from(a.min(b)) * 65536 + u64::from(a.max(b))
}

// Writes the keys of a face's edges, one a corner: from each corner to the next, and from the last
// corner to the first.
fn face_keys(face: &[u32], work: &mut [u64])
    requires { length face.now ≤ length work.old }
    ensures { work.new ≡ over (face_keys face.now) work.old }
{
    // Places by number: of a loop over `work.iter_mut().zip(face)`, a proof does not see what the places end as.
    for (i, corner) in face.iter().enumerate() {
        let next = face.get(i + 1).copied().unwrap_or(face[0]);
        work[i] = edge_key(*corner, next);
    }
}

// Writes the keys of all edges, one a corner, face after face. The start is carried by hand: it is a place in `work`
// too, and an iterator of the faces would have to carry that the ends fit. Here and below `corners` and `ends` are no
// struct: two of the three functions ask the same facts of them, but an accepted mesh would ask more of the callers,
// that its coordinates are finite. That `work` has room is a clause: C lends it, and question 6 asks how long it is.
fn fill_keys(corners: &[u32], ends: &[u32], work: &mut [u64])
    requires ends_value { ends_fit 0 (length corners.now) ends.now ≡ true }
    requires corners_in_bounds { length corners.now ≤ length work.old }
    ensures { work.new ≡ over (edge_keys (faces corners.now ends.now)) work.old }
{
    let mut start = 0;
    for end in ends {
        let end = *end as usize;
        face_keys(&corners[start..end], &mut work[start..end]);
        start = end;
    }
}

// Writes the keys of all edges in ascending order.
pub fn edge_keys(corners: &[u32], ends: &[u32], work: &mut [u64])
    requires ends_value { ends_fit 0 (length corners.now) ends.now ≡ true }
    requires below { Below 65536 corners.now }
    requires corners_in_bounds { length corners.now ≤ length work.old }
    ensures { work.new ≡ over (sorted (edge_keys (faces corners.now ends.now))) work.old }
{
    let n = corners.len();
    fill_keys(corners, ends, work);
    keys::sort(&mut work[..n]);
}

// Whether the keys, in ascending order, stand in pairs: each exactly twice. The loop stops at a third equal key: `chunk_by`
// would go to the end of a run, however long, before its length is asked.
#[tactic(auto, unfolding(crate::specs::steps::Pairs::in_pairs))]
fn in_pairs(keys: &[u64]) -> bool
    ensures { result ≡ in_pairs keys.now }
{
    let mut rest = keys;
    while let [first, second, tail @ ..] = rest {
        if first != second || tail.first() == Some(first) {
            return false;
        }
        rest = tail;
    }
    rest.is_empty()
}

// Whether a mesh is closed: it has so many faces, and these are the keys of its edges in ascending order. A key
// stands for one edge where vertices are below 65,536 (`closed_keys_closed` in specs/laws/PairLaws.antt).
#[tactic(auto, unfolding(crate::specs::steps::Pairs::closed_keys))]
pub fn is_closed(faces: usize, keys: &[u64]) -> bool
    ensures { result ≡ closed_keys faces keys.now }
{
    faces > 0 && in_pairs(keys)
}

// Writes the keys of all edges in ascending order, and says whether the mesh is closed.
#[tactic(auto, using(crate::specs::laws::PairLaws::closed_of))]
pub fn keys_closed(corners: &[u32], ends: &[u32], work: &mut [u64]) -> bool
    requires { (ends_fit 0 (length corners.now) ends.now ≡ true) × Below 65536 corners.now × (length corners.now ≤ length work.old) }
    ensures { (result ≡ closed (faces corners.now ends.now)) × (work.new ≡ over (sorted (edge_keys (faces corners.now ends.now))) work.old) }
{
    let n = corners.len();
    edge_keys(corners, ends, work);
    is_closed(ends.len(), &work[..n])
}
