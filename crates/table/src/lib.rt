// Tables of histories: sixteen rows of 32 words, one a site, with their counts.
#![tactic(auto)]

ghost use Rattle.std.specs.Prelude.{◌≡◌};
ghost use Rattle.roster.specs.Sites.{all_to};
ghost use Rattle.table.specs.Table.{sites};
ghost use Rattle.table.specs.Table as spec;
ghost use Rattle.table.specs.TableLaws.{Sized};

// One history a site: row i is words 32 * i to 32 * i + 31, of which the first counts[i] are the history. The words after them mean
// nothing.
#[repr(C)]
#[derive(Clone, Copy)]
pub struct Table {
    pub counts: [u8; 16],
    pub words: [u64; 512],
}

// Rows of histories where they lie: 32 words each, one after the other, and a count for each.
#[derive(Clone, Copy)]
pub struct Rows<'a> {
    pub words: &'a [u64],
    pub counts: &'a [u8],
}

impl<'a> Rows<'a> {
    // History `site`, as the part of the words that it is; an empty part where it is out of range.
    pub fn row(self, site: usize) -> &'a [u64]
        ensures { result.now ≡ spec.row self.entry.words.now self.entry.counts.now site }
    {
        let Rows { words, counts } = self;
        if counts.len() <= site || words.len() / words::CAPACITY <= site {
            return &words[..0];
        }
        let n = counts[site] as usize;
        if words::CAPACITY < n {
            return &words[..0];
        }
        let start = words::CAPACITY * site;
        &words[start..start + n]
    }

    // Whether row `site` is one that lent state may hold, under a limit and for n sites. An empty one is, and so is one without a count.
    fn row_valid(self, limit: u8, site: usize, n: u8) -> bool
        ensures { result ≡ spec.valid_row limit n self.entry.words.now self.entry.counts.now site }
    {
        if site >= self.counts.len() {
            return true;
        }
        let count = self.counts[site];
        if count == 0 {
            return true;
        }
        if limit < count {
            return false;
        }
        if n as usize <= site {
            return false;
        }
        history::valid(self.row(site))
    }

    // Whether every row of a table is one that lent state may hold, under a limit and for n sites.
    pub fn valid(self, limit: u8, n: u8) -> bool
        ensures { result ≡ all_to sites (spec.valid_row limit n self.entry.words.now self.entry.counts.now) }
    {
        (0..Table::SITES).all(|i| self.row_valid(limit, i, n))
    }
}

// Stores h as row `site` of a table's words and counts; leaves both where there is no such row, where h is too long for one, or where one of
// them is shorter than a table's.
pub fn store(words: &mut [u64], counts: &mut [u8], site: usize, h: &[u64])
    ensures { spec.table_of words.new counts.new ≡ spec.stored_in words.old counts.old site h.now }
{
    if counts.len() < Table::SITES || words.len() < words::CAPACITY * Table::SITES {
        return;
    }
    let len = h.len();
    if Table::SITES <= site || words::CAPACITY < len {
        return;
    }
    counts[site] = len as u8;
    let at = words::CAPACITY * site;
    history::fill(&mut words[at..at + words::CAPACITY], h);
}

impl Table {
    // The most sites, one row for each.
    pub const SITES: usize = 16;

    // All counts and words 0.
    pub fn empty() -> Table
        ensures { result ≡ spec.empty_table }
    {
        Table {
            counts: [0u8; 16],
            words: [0u64; 512],
        }
    }

    // The rows.
    pub fn rows(&self) -> Rows<'_>
        ensures { (result.words.now ≡ self.now.words) × (result.counts.now ≡ self.now.counts) }
    {
        Rows {
            words: &self.words,
            counts: &self.counts,
        }
    }

    // History `site`; an empty one where it is out of range.
    pub fn row(&self, site: usize) -> &[u64]
        ensures { result.now ≡ spec.row_of self.now site }
    {
        self.rows().row(site)
    }

    // Stores h as row `site`; the table stays where there is no such row, or h is too long for one.
    pub fn store(&mut self, site: usize, h: &[u64])
        ensures { self.new ≡ spec.stored_at self.old site h.now }
    {
        store(&mut self.words, &mut self.counts, site, h);
    }

    // Whether every row is one that lent state may hold, under a limit and for n sites. A table's arrays have their sizes, whatever they hold.
    #[tactic(auto, unfolding(crate::specs::Table::valid_table))]
    pub fn is_valid(&self, limit: u8, n: u8) -> bool
        ensures valid { result ≡ spec.valid_table limit n self.now }
        ensures sized { Sized self.now }
    {
        self.rows().valid(limit, n)
    }

    // Empties every row.
    pub fn clear(&mut self)
        ensures { self.new ≡ spec.empty_table }
    {
        *self = Table::empty();
    }
}
