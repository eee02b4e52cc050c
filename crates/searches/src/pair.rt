// What a search is asked about.
ghost use Rattle.std.specs.Prelude.{◌<◌, length};
ghost use Rattle.matching.specs.Code.Part.{Stands};

use matching::Records;

// A pattern and a row among the term records of a law, and the positions where they stand there.
#[derive(Clone, Copy)]
pub struct Pair<'a> {
    pub records: Records<'a>,
    pub pattern: &'a [u8],
    pub at: usize,
    pub row: &'a [u8],
    pub start: usize,
    pub ghost few: { length records.terms.now < 65536 },
    pub ghost pattern_stands: { Stands records.terms.now pattern.now at },
    pub ghost row_stands: { Stands records.terms.now row.now start },
}
