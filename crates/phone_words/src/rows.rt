//! The table of the options: from it words are read, the help is made, and refusals are told.
ghost use Rattle.std.specs.Prelude.{◌≡◌, ◌++◌, ◌&&◌, ℕ, List, IfSome, IsNone, map, option_map};
ghost use Rattle.std.specs.List.{find};
ghost use Rattle.phone_words.specs.Rows.{after, after_name, after_short, counts, entry};
ghost use Rattle.phone_words.specs.Rows.{entry_and_text, entry_of, first_rows, is_among, is_mark};
ghost use Rattle.phone_words.specs.Rows.{is_name, joined, joined_in, more_rows, named, text_in};
ghost use Rattle.phone_words.specs.Rows.{texts_of, value_among, value_in};

/// An option of the program.
#[derive(Clone, Copy)]
pub struct Row {
    /// Its name, by which its value is looked up.
    pub name: &'static str,
    /// Its name of one letter; empty where it has none.
    pub short: &'static str,
    /// What its value is; empty where it takes none.
    pub value: &'static str,
    /// The word beside which alone the row counts; empty where it always does.
    pub beside: &'static str,
    /// The options of which each has to have a value.
    pub needs: &'static [&'static str],
    /// The options that it doesn't go with.
    pub excludes: &'static [&'static str],
    /// What it asks for: lines that are indented, with a line feed before each.
    pub help: &'static str,
}

/// The cells of a row, in the order of its fields.
pub(crate) type Cells = (
    &'static str,
    &'static str,
    &'static str,
    &'static str,
    &'static [&'static str],
    &'static [&'static str],
    &'static str,
);

macro_rules! rows {
    ($($name:literal $short:literal $value:literal $beside:literal
        [$($need:literal)*] [$($other:literal)*] $help:literal)*) => {
        [$(($name, $short, $value, $beside, &[$($need),*], &[$($other),*], $help)),*]
    };
}

/// The first options, each by its name, its name of one letter, what its value is, the word beside
/// which it counts, what it needs, what it doesn't go with, and its help.
const ROWS: [Cells; 25] = rows! {
    "--json" "" "" "" [] ["--unique" "--typed" "--short"] "
      a JSON object a line: the line's number and text, the fields that --csv gives, and
      calling_code, national_number, possibility and area_code; with --find an object for each
      number: line, column, text, those fields but the refusal, and extension"
    "--time-zone" "" "" "--json" ["--time-zones"] ["--find"] "
      each object has one text more, time_zone: the number's time zones"
    "--carrier" "" "" "--json" ["--carriers"] ["--find"] "
      so too carrier: the company that has the number today; empty in regions where numbers can be
      taken to another company"
    "--first-carrier" "" "" "--json" ["--carriers"] ["--find"] "
      so too first_carrier: the company that the number was first given to"
    "--area" "" "" "--json" ["--areas"] ["--find"] "
      so too area: the number's area"
    "--language" "" "LANG" "--json" ["--places"] ["--find"] "
      the language of that area and carrier, as with --csv"
    "--find" "" "" "" [] ["--unique" "--typed" "--short"] "
      finds the valid numbers in running text, and writes for each its line, its column, its E.164
      text and the piece of the text, parted by tabs; the file's name before them where several are
      named"
    "--csv" "" "" "--find" [] ["--json"] "
      writes a record for each, under a line of headings: line, column, e164, type, region,
      extension, text; before them the file, where several are named"
    "--leniency" "" "LEVEL" "" [] [] "
      with --find, what libphonenumber's own matcher finds at this leniency: possible, by the count
      of digits; valid; or strict-grouping and exact-grouping, valid and in groups as a format has
      them"
    "--csv" "" "COLUMN" "" [] ["--json" "--find" "--typed" "--short"] "
      gives a CSV file back, its records as they are and in their order, each with seven fields
      after its own: e164, international, national, type, region, validity, refusal. COLUMN is the
      name of the column of the numbers, in the file's first record. A record with more or fewer
      fields than the first ends the run"
    "--with-input" "" "" "" [] ["--csv" "--json" "--find" "--unique" "--typed" "--short"] "
      ends each report line with a tab and the line as it came"
    "--format" "" "FORMAT" "" []
        ["--csv" "--json" "--find" "--unique" "--with-input" "--typed" "--short"] "
      writes in place of the report each number's text alone: e164, international, national or
      rfc3966; original, in the format in which it was written; or mobile, as a mobile phone in
      REGION dials it, empty where it can't. A line without a number is answered as by the report"
    "--unique" "" "" "" [] ["--typed" "--short"] "
      writes in place of the report the first line of each number: its E.164 text and, behind
      ;ext=, its extension, a tab, the line as it came. With --csv it leaves out each record whose
      number and extension were in a record before it; records without a number stay"
    "--typed" "" "" "" [] ["--short"] "
      takes each line as the keys of a number that is typed, and writes what is shown after each
      key, parted by |. In a terminal, without FILE, it shows the number in place, key by key"
    "--short" "" "" "" [] [] "
      takes each line as a number that is dialled within REGION, which has to be named, and writes
      yes or no, parted by tabs: whether its count of digits is possible; whether it is a short
      number; in place of yes what it costs, TollFree, StandardRate, PremiumRate or Unknown; whether
      only some carriers connect it; whether it is an emergency number; whether it reaches emergency
      services"
    "--region-column" "" "COLUMN" "" ["--csv"] [] "
      a record is read under the region that stands in this column, or under REGION where nothing
      does: by its id, its three letters of ISO, a name in one of many languages, or its calling
      code, as DE, deu, Germany, Deutschland, +49. Where anything else does, its number is refused
      as of an unknown region, and standard error tells the nearest names"
    "--fallback-region" "" "" "" ["--csv" "--region-column"] [] "
      where anything else does, it is read under REGION too"
    "--delimiter" "-d" "D" "" ["--csv"] [] "
      what stands between fields, in place of a comma: one ASCII character, or the word tab"
    "--duplicates" "" "" "" ["--csv"] ["--unique"] "
      two columns before the others: duplicate_of, where an earlier record has the number and its
      extension, the number of the first one that has, the header counted as 1; and duplicates, on
      that one, how many later ones there are. The input is read whole before anything is written"
    "--summary" "" "FILE" "" ["--csv"] [] "
      FILE gets a JSON object once the table was answered whole: how often each type, region and
      refusal was answered, and each word of --suspicion where that is there"
    "--mark-bad-records" "" "" "" ["--csv"] [] "
      a record with more or fewer fields than the first is given back as it is, and refused"
    "--prefixes" "" "FILE" "" ["--csv" "--as"] [] "
      a column before the seven, told by the longest prefix of a table that begins the digits of the
      E.164 text, as each of the four below: the text in this file. Its lines are a prefix of 1 to
      15 digits, a tab and a text, or both as CSV. A field is empty where there is no number or no
      such prefix"
    "--as" "" "NAME" "" ["--csv" "--prefixes"] [] "
      the name of that column"
    "--time-zone" "" "" "" ["--csv" "--time-zones"] [] "
      a column of the number's time zones"
    "--carrier" "" "" "" ["--csv" "--carriers"] [] "
      one of the company that has the number today; empty in regions where numbers can be taken to
      another company"
};

/// The other options: a constant of all would be too great for the prover.
const MORE: [Cells; 27] = rows! {
    "--first-carrier" "" "" "" ["--csv" "--carriers"] [] "
      one of the company that the number was first given to, which is what most people mean"
    "--area" "" "" "" ["--csv" "--areas"] [] "
      one of its area"
    "--language" "" "LANG" "" ["--csv" "--places"] [] "
      the language of areas and carriers, as de, pt-BR or zh_TW; where it has no text it is told in
      English, unless it is Chinese, Japanese or Korean"
    "--extension" "" "" "" ["--csv"] [] "
      a column of the number's extension, so before the seven, but by no table; empty where the
      number has none or there is no number"
    "--calling-code" "" "" "" ["--csv"] [] "
      one of its calling code, calling_code"
    "--national-number" "" "" "" ["--csv"] [] "
      one of its digits behind the calling code, leading zeros with them, national_number"
    "--possibility" "" "" "" ["--csv"] [] "
      one of what the count of those digits says, possibility: possible, possible-locally, which
      suffices within an area, too-short, too-long, wrong-length or unknown-code"
    "--area-code" "" "" "" ["--csv"] [] "
      one of those digits that are the code of its area, area_code; empty where it has none"
    "--suspicion" "" "" "" ["--csv"] [] "
      one of what is suspicious about the field, in words that change no answer, empty for most:
      float, no-plus, zero-in-brackets, letters, two-numbers, date, zero-lost, other-region"
    "--split" "" "" "" ["--csv"] [] "
      six columns: e164_1, type_1 and region_1 of the first of two numbers in a field, e164_2,
      type_2 and region_2 of the second; empty where a field isn't two valid numbers"
    "--prefix" "" "NAME" "" ["--csv"] [] "
      NAME stands in front of the name of each added column, as in NAMEe164. A table that has such
      a name already is refused"
    "--areas" "" "FILE" "" [] [] "
      the table of areas"
    "--time-zones" "" "FILE" "" [] [] "
      the table of time zones, in place of the one that comes with the program"
    "--carriers" "" "FILE" "" [] [] "
      that of carriers, so too"
    "--countries" "" "FILE" "" [] [] "
      that of the names of regions, so too"
    "--places" "" "FOLDER" "" [] [] "
      the folder of the tables of areas and carriers in other languages"
    "--rules" "" "RULES" "" [] [] "
      library (the default): numbers are read and described as libphonenumber does; crate: as the
      Rust crate phonenumber does, but not with --typed and --short"
    "--database" "" "FILE" "" [] [] "
      the database, a JSON text, in place of the table of the world"
    "--short-database" "" "FILE" "" [] [] "
      that of short numbers"
    "--alternates" "" "FILE" "" [] [] "
      that of other formats of numbers, by which --leniency tells their groups"
    "--output" "-o" "FILE" "" [] [] "
      what is written goes there, once all is and the run has ended with status 0; else what was
      there stays"
    "--encoding" "" "NAME" "" [] [] "
      the encoding of the inputs, in place of utf-8: utf-16 (its mark tells the order of its bytes),
      utf-16le, utf-16be, latin-1 or windows-1252. What is written is UTF-8"
    "--lenient" "" "" "" [] [] "
      a line, or a record of a table, that isn't UTF-8 leaves the status 0, which is 1 without this
      option. How many there are, and where the first one stands, is told on standard error"
    "--skipped" "" "N" "" [] [] "
      lines are counted as if N stood before them (of a table: after its header)"
    "--regions" "" "" "" [] [] "
      lists the regions, each by its id, a tab and its English name"
    "--version" "-V" "" "" [] [] "
      tells the version of the program and of the table of the world"
    "--help" "-h" "" "" [] [] "
      tells this"
};

/// The row of these cells.
pub(crate) fn row_of(cells: Cells) -> Row
    ensures { entry result ≡ entry_of cells.entry }
{
    let (name, short, value, beside, needs, excludes, help) = cells;
    Row {
        name,
        short,
        value,
        beside,
        needs,
        excludes,
        help,
    }
}

/// Whether a word is `--`, after which all words are operands.
pub(crate) fn is_mark(word: &str) -> bool
    ensures { result ≡ is_mark word.now }
{
    word == "--"
}

/// Whether a text is one of these words, in front of the mark.
fn is_among(text: &str, words: &[&str]) -> bool
    ensures { result ≡ is_among text.now (texts_of words.now) }
{
    for word in words {
        if is_mark(*word) || *word == text {
            return !is_mark(*word);
        }
    }
    false
}

/// Whether a row counts among these words.
fn counts(row: Row, words: &[&str]) -> bool
    ensures { result ≡ counts (texts_of words.now) (entry row) }
{
    row.beside.is_empty() || is_among(row.beside, words)
}

/// Whether a word is a row's name.
fn is_name(row: Row, word: &str) -> bool
    ensures { result ≡ is_name word.now (entry row) }
{
    word == row.name || !word.is_empty() && word == row.short
}

/// The first row of these cells that a word names, and that counts among these words.
fn named_in(cells: &[Cells], words: &[&str], word: &str) -> Option<Row>
    ensures { option_map entry result ≡
        find (λ r. is_name word.now r && counts (texts_of words.now) r) (map entry_of cells.now) }
{
    for cells in cells {
        let row = row_of(*cells);
        if is_name(row, word) && counts(row, words) {
            return Some(row);
        }
    }
    None
}

/// The cells of the first options.
#[tactic(auto, unfolding(crate::specs::Rows::first_rows))]
pub(crate) fn first_rows() -> &'static [Cells]
    ensures { map entry_of result.now ≡ first_rows }
{
    &ROWS
}

/// Those of the others.
#[tactic(auto, unfolding(crate::specs::Rows::more_rows))]
pub(crate) fn more_rows() -> &'static [Cells]
    ensures { map entry_of result.now ≡ more_rows }
{
    &MORE
}

/// The option that a word names, among these words.
pub(crate) fn named(words: &[&str], word: &str) -> Option<Row>
    ensures { option_map entry result ≡ named (texts_of words.now) word.now }
{
    match named_in(first_rows(), words, word) {
        Some(row) => Some(row),
        None => named_in(more_rows(), words, word),
    }
}

/// What stands after this front of a word.
fn after_front<'w>(word: &'w str, front: &str) -> Option<&'w str>
    ensures found { IfSome result (λ rest. word.now ≡ front.now ++ rest.now) }
    ensures none { IsNone result → (rest : List ℕ) → ¬ (word.now ≡ front.now ++ rest) }
{
    word.strip_prefix(front)
}

/// The same, as the definition has it.
fn after<'w>(front: &str, word: &'w str) -> Option<&'w str>
    ensures { text_in result ≡ after front.now word.now }
{
    after_front(word, front)
}

/// The value that stands in a word after an option's name and an equals sign.
fn after_name<'w>(row: Row, word: &'w str) -> Option<&'w str>
    ensures { text_in result ≡ after_name (entry row) word.now }
{
    match after(row.name, word) {
        Some(rest) => after("=", rest),
        None => None,
    }
}

/// The value that stands in a word after an option's name of one letter.
fn after_short<'w>(row: Row, word: &'w str) -> Option<&'w str>
    ensures { text_in result ≡ after_short (entry row) word.now }
{
    if row.short.is_empty() {
        return None;
    }
    after(row.short, word)
}

/// The value of an option that stands in one word with its name.
fn value_in<'w>(row: Row, word: &'w str) -> Option<&'w str>
    ensures { text_in result ≡ value_in (entry row) word.now }
{
    if row.value.is_empty() {
        return None;
    }
    match after_name(row, word) {
        Some(value) => Some(value),
        None => after_short(row, word),
    }
}

/// The same of a row that counts among these words.
fn value_among<'w>(row: Row, words: &[&str], word: &'w str) -> Option<&'w str>
    ensures { text_in result ≡ value_among (texts_of words.now) (entry row) word.now }
{
    if counts(row, words) {
        return value_in(row, word);
    }
    None
}

/// The first row of these cells that counts among these words and whose name stands in a word with
/// its value, and that value.
fn joined_in<'w>(cells: &[Cells], words: &[&str], word: &'w str) -> Option<(Row, &'w str)>
    ensures { option_map entry_and_text result ≡
        joined_in (texts_of words.now) (map entry_of cells.now) word.now }
{
    for cells in cells {
        let row = row_of(*cells);
        if let Some(value) = value_among(row, words, word) {
            return Some((row, value));
        }
    }
    None
}

/// The option and its value that are one word, among these words: `--csv=phone`, `-d;`.
pub(crate) fn joined<'w>(words: &[&str], word: &'w str) -> Option<(Row, &'w str)>
    ensures { option_map entry_and_text result ≡ joined (texts_of words.now) word.now }
{
    match joined_in(first_rows(), words, word) {
        Some(found) => Some(found),
        None => joined_in(more_rows(), words, word),
    }
}

/// What the value of an option of these cells is, in one word; none where there is no such option,
/// or it takes none.
fn word_among(cells: &[Cells], name: &str) -> Option<&'static str> {
    for cells in cells {
        let row = row_of(*cells);
        if row.name == name && !row.value.is_empty() {
            return Some(row.value);
        }
    }
    None
}

/// What the value of an option is, in one word; empty where there is no such option, or it takes
/// none.
pub fn value_word(name: &str) -> &'static str {
    match word_among(first_rows(), name) {
        Some(value) => value,
        None => word_among(more_rows(), name).unwrap_or(""),
    }
}
