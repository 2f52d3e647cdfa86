//! What holds of candidates and their pieces. The contracts of these functions are the statements;
//! the functions do nothing.
ghost use Rattle.std.specs.Prelude.{◌≡◌, ℕ, List};
ghost use Rattle.phone_matches_text.specs.Pieces.{ArePieces, Piece};

/// A candidate is parted into one list of pieces.
pub fn one_parting()
    ensures { (text : List ℕ) (a b : List Piece) → ArePieces text a → ArePieces text b → a ≡ b }
{}
