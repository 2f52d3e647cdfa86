//! What holds of columns. These functions do nothing; their contracts are the statements.
ghost use Rattle.std.specs.Prelude.{◌≡◌, ◌++◌, ℕ, List, map};
ghost use Rattle.std.specs.List.{flat_map};
ghost use Rattle.phone_values.specs.declared.mode.Mode.{Mode};
ghost use Rattle.phone_values.specs.declared.rules.Rules.{Rules};
ghost use Rattle.phone_records.specs.declared.loader.Metadata as loader;
ghost use Rattle.phone_columns.specs.Cells.{cell_of_row, fact_of_row, is_number, text_of_row};
ghost use Rattle.phone_columns.specs.Rows.{AreAnswers, IsAnswer, Row};
ghost use Rattle.phone_columns.specs.declared.answers.Answer.{Answer};
ghost use Rattle.phone_columns.specs.declared.column.Cell.{Cell};
ghost use Rattle.phone_columns.specs.declared.column.Fact.{Fact};

/// A row has one answer, whatever stands in the others; so have rows.
pub fn one_answer()
    ensures row { (rules : Rules) (db : List loader.Metadata) (row : Row) (a b : Answer) →
        IsAnswer rules db row a → IsAnswer rules db row b → a ≡ b }
    ensures rows { (rules : Rules) (db : List loader.Metadata) (rows : List Row)
        (xs ys : List Answer) → AreAnswers rules db rows xs → AreAnswers rules db rows ys →
        xs ≡ ys }
{}

/// The answers of rows one after the other are their answers one after the other, and so is what
/// each column has of them.
pub fn one_after_the_other()
    ensures answers { (rules : Rules) (db : List loader.Metadata) (rows more : List Row)
        (xs ys : List Answer) → AreAnswers rules db rows xs → AreAnswers rules db more ys →
        AreAnswers rules db (rows ++ more) (xs ++ ys) }
    ensures cells { (c : Cell) (xs ys : List Answer) → flat_map (cell_of_row c) (xs ++ ys) ≡
        flat_map (cell_of_row c) xs ++ flat_map (cell_of_row c) ys }
    ensures facts { (rules : Rules) (db : List loader.Metadata) (f : Fact)
        (xs ys : List Answer) → flat_map (fact_of_row rules db f) (xs ++ ys) ≡
        flat_map (fact_of_row rules db f) xs ++ flat_map (fact_of_row rules db f) ys }
    ensures texts { (rules : Rules) (db : List loader.Metadata) (m : Mode)
        (xs ys : List Answer) → flat_map (text_of_row rules db m) (xs ++ ys) ≡
        flat_map (text_of_row rules db m) xs ++ flat_map (text_of_row rules db m) ys }
    ensures flags { (xs ys : List Answer) →
        map is_number (xs ++ ys) ≡ map is_number xs ++ map is_number ys }
{}
