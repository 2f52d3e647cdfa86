//! What holds of the definitions of this crate. These functions do nothing; their contracts are the
//! statements.
ghost use Rattle.std.specs.Prelude.{◌≡◌, ℕ, List, Option};
ghost use Rattle.phone_lines.specs.Taken as InTurn;
ghost use Rattle.phone_lines.specs.Taken.{BeginsInOneWay, GivesInOneWay};
ghost use Rattle.phone_lines.specs.Lines.{AreLines};
ghost use Rattle.phone_lines.specs.LineReports.{HasAnAnswer, HasOneAnswer};
ghost use Rattle.phone_lines.specs.LineReports.{IsBeginning, IsReport, TakesA, TakesBeginning};

use crate::{Answers, LineTaker};

/// Bytes have lines, and in one way alone.
pub fn lines()
    ensures some { (bytes : List ℕ) → (lines : List (List ℕ)) × AreLines bytes lines }
    ensures one { (bytes : List ℕ) (a b : List (List ℕ)) → AreLines bytes a → AreLines bytes b →
        a ≡ b }
{}

/// Bytes have at most one report, where a line has at most one answer.
pub fn one_report<A: Answers>(answers: &A)
    ensures { HasOneAnswer (A.gives answers.now) → (bytes a b : List ℕ) →
        IsReport (A.gives answers.now) bytes a → IsReport (A.gives answers.now) bytes b → a ≡ b }
{}

/// Bytes have a report, where each line has an answer.
pub fn some_report<A: Answers>(answers: &A)
    ensures { HasAnAnswer (A.gives answers.now) → (bytes : List ℕ) →
        (report : List ℕ) × IsReport (A.gives answers.now) bytes report }
{}

/// What was written where a sink failed begins each report on what was read, where a line has at
/// most one answer.
pub fn begins_each_report<A: Answers>(answers: &A)
    ensures { HasOneAnswer (A.gives answers.now) →
        (to_come : Option (List ℕ)) (bytes : List ℕ) (before after : Option (List ℕ)) →
        TakesA (IsBeginning (A.gives answers.now) to_come bytes) before after →
        TakesBeginning (A.gives answers.now) bytes before after }
{}

/// Bytes have at most one report by a taker of lines, and leave it in one way, where what it keeps
/// and a line have at most one answer, and leave it in one way.
pub fn one_report_in_turn<T: LineTaker>(taker: &T)
    ensures { BeginsInOneWay T.begins → GivesInOneWay T.gives → (bytes a b : List ℕ) (p q : T) →
        InTurn.IsReport T.begins T.gives taker.now bytes p a →
        InTurn.IsReport T.begins T.gives taker.now bytes q b → (a ≡ b) × (p ≡ q) }
{}
