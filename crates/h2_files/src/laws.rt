//! Laws of the paths that are served.

ghost use Rattle.std.specs.Prelude.{◌≡◌, ◌≢◌, ℕ, List, [], All, drop};
ghost use Rattle.h2_files.specs.Paths.{StaysInFolder, below, segments};

// contract: files (own) A name that leaves its folder, or is hidden, is refused
/// A law: no path leaves its root. The segments of what stands after the root are the names, in
/// their order; so where each name stays in its folder, as those of
/// [`file_names`](crate::file_names) do, none of them is `..`, nor hides a second one.
pub fn segments_are_names()
    ensures { (names : List (List ℕ)) → names ≢ [] → All StaysInFolder names
        → segments (drop 1 (below names)) ≡ names }
{}
