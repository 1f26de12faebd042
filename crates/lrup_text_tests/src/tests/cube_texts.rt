//! What a few texts mean, proved only from the definition of a cube's text: if the definition were
//! wrong, the proofs would fail.
ghost use Rattle.std.specs.Prelude.{◌≡◌, ◌≤◌, [], ◌∷◌, ℕ, codes, pos, negsuc};
ghost use Rattle.lrup_model.specs.Cube.{CubeValue, IsCubeOf};
ghost use Rattle.lrup_model.specs.Literal.{max_variable};
ghost use Rattle.lrup_text.specs.Cubes.{IsCubeText};

/// A number may not have a leading zero, and the text has to end with LF.
pub fn cubes_are_refused()
    ensures zero { (vars : ℕ) (cube : CubeValue) → vars ≤ max_variable
        → ¬ IsCubeText vars (codes "01 0\n") cube }
    ensures line_feed { (vars : ℕ) (cube : CubeValue) → ¬ IsCubeText vars (codes "1 0") cube }
{}

/// A text may repeat a literal, and the cube is the set of the text's literals, in any order.
pub fn a_text_is_of_a_set()
    ensures { (cube : CubeValue) → IsCubeOf (pos 1 ∷ negsuc 1 ∷ []) cube
        → IsCubeText 2 (codes "-2 1 -2 0\n") cube }
{}
