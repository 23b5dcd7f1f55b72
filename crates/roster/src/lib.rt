// The roster: how many sites there are, how many of them may lie, and what follows from the two figures (validity, the quorum, the
// leader of a view); the two 32-bit counts, views and ballots; and masks, sets of sites in 16 bits, in which proofs are counted.
#![tactic(auto)]

ghost use Rattle.std.specs.Prelude.{◌≡◌};
ghost use Rattle.roster.specs.Roster.{valid_roster, quorum, weak_certificate, leader_of};
ghost use Rattle.roster.specs.Counts as counts;
ghost use Rattle.roster.specs.Mask.{reaches, beyond, unproven, bit, with_site};

// A count of views, from 0.
#[repr(C)]
#[derive(Clone, Copy, Default, PartialEq, Eq, PartialOrd, Ord)]
pub struct View(pub u32);

impl View {
    // Whether it is view 0, which is no target.
    pub fn is_zero(self) -> bool
        ensures { result ≡ counts.zero_view self }
    {
        self.0 == 0
    }

    // Whether no view comes after it.
    pub fn is_last(self) -> bool
        ensures { result ≡ counts.last_view self }
    {
        4294967295 <= self.0
    }
}

// A count of ballots, from 0.
#[repr(C)]
#[derive(Clone, Copy, Default, PartialEq, Eq, PartialOrd, Ord)]
pub struct Ballot(pub u32);

impl Ballot {
    // Whether it is ballot 0.
    pub fn is_zero(self) -> bool
        ensures { result ≡ counts.zero_ballot self }
    {
        self.0 == 0
    }
}

// `n` sites, numbered from 0, of which `f` may lie.
#[repr(C)]
#[derive(Clone, Copy)]
pub struct Roster {
    pub n: u8,
    pub f: u8,
}

impl Roster {
    // The fewest sites.
    pub const MIN_SITES: u8 = 4;

    // The most sites, one for each bit of a mask.
    pub const MAX_SITES: u8 = 16;

    // The fewest sites that may lie.
    pub const MIN_FAULTS: u8 = 1;

    // The 3 of N ≥ 3f+1.
    pub const FAULT_FACTOR: u32 = 3;

    // Whether the figures are ones that a roster may have.
    pub fn valid(self) -> bool
        ensures { result ≡ valid_roster self }
    {
        let n = self.n;
        let f = self.f;
        (Self::MIN_SITES <= n)
            & (n <= Self::MAX_SITES)
            & (Self::MIN_FAULTS <= f)
            & (Self::FAULT_FACTOR * (f as u32) + 1 <= n as u32)
    }

    // How many sites make a quorum; 0 where more sites may lie than there are.
    pub fn quorum(self) -> u32
        ensures { result ≡ quorum self }
    {
        let n = self.n;
        let f = self.f;
        if f <= n { (n - f) as u32 } else { 0 }
    }

    // How many sites are sure to have an honest one among them.
    pub fn weak_certificate(self) -> u32
        ensures { result ≡ weak_certificate self }
    {
        self.f as u32 + 1
    }

    // The site that leads in `view`; 0 where there are no sites.
    pub fn leader_of(self, view: View) -> u8
        ensures { result ≡ leader_of self view }
    {
        let sites = self.n;
        if sites == 0 {
            return 0;
        }
        (view.0 % (sites as u32)) as u8
    }
}

// Whether the mask has at least `threshold` ones.
pub fn reaches(mask: u16, threshold: u32) -> bool
    ensures { result ≡ reaches mask threshold }
{
    threshold <= u16::count_ones(mask)
}

// Whether some bit at `n` or above is set.
pub fn beyond(mask: u16, n: u8) -> bool
    ensures { result ≡ beyond mask n }
{
    if n < Roster::MAX_SITES {
        1 <= mask >> n
    } else {
        false
    }
}

// Whether a mask proves too little: some bit at `n` or above is set, or it has fewer than `needed` ones.
pub fn unproven(mask: u16, n: u8, needed: u32) -> bool
    ensures { result ≡ unproven mask n needed }
{
    beyond(mask, n) | !reaches(mask, needed)
}

// Whether the site's bit is set; the sites from 16 on are in no mask.
pub fn contains(mask: u16, site: u8) -> bool
    ensures { result ≡ bit mask site }
{
    if site < Roster::MAX_SITES {
        (mask >> site) % 2 == 1
    } else {
        false
    }
}

// The mask with the site's bit set; unchanged for a site from 16 on.
pub fn with_site(mask: u16, site: u8) -> u16
    ensures { result ≡ with_site mask site }
{
    if site < Roster::MAX_SITES {
        mask | 1 << site
    } else {
        mask
    }
}
