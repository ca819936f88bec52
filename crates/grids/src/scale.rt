// Document 02, A.6: a grid painted from prices, of which each cell has two, by a scale of rising edges.
ghost use Rattle.std.specs.Prelude.{◌≡◌, false, not, ◌/◌, ◌≤◌, length};
ghost use Rattle.leaves.specs.Put.{put};
ghost use Rattle.grids.specs.Levels.{Levels, Padded, BlockEnds};
ghost use Rattle.grids.specs.Scale.{number_of, answer_number, shade_of, index_of, indices_of, not_scale, not_quote, some_not_quote, Shaded};

// Why a grid is not painted.
#[derive(Clone, Copy, Debug, PartialEq, Eq)]
pub enum ShadeRefusal {
    // Highs or a plane shorter than the lows.
    ListsTooShort = 15,
    // No edge or over 254, an edge that is not a number, or edges that do not strictly rise.
    NotScale = 22,
    // A low or high that is not a number, or a low above its high.
    NotQuote = 23,
}

impl ShadeRefusal {
    // Document 02's number.
    pub fn number(self) -> u32
        ensures { result ≡ number_of self }
    {
        self as u32
    }
}

// Document 02: "a cell is a record with a low and a high price".
#[derive(Clone, Copy)]
pub struct Quote {
    pub low: f64,
    pub high: f64,
}

impl Quote {
    // Whether both ends are numbers, the low not above the high: at or below is all of that.
    fn is_quote(self) -> bool
        ensures { result ≡ not (not_quote self) }
    {
        self.low <= self.high
    }
}

// The index of a cell whose ends have different shades.
const HATCH: u8 = 255;

// Whether edges are a scale: 1 to 254 numbers, strictly rising. What is above a number is one, so the first alone is
// asked.
fn is_scale(edges: &[f64]) -> bool
    ensures { result ≡ not (not_scale edges.now) }
{
    let n = edges.len();
    if n < 1 {
        return false;
    }
    if 254 < n {
        return false;
    }
    if edges[0].is_nan() {
        return false;
    }
    edges.is_sorted_by(|before, edge| before < edge)
}

// A scale's edges with NaNs behind them.
fn put_edges(edges: &[f64], all: &mut [f64; 256])
    requires { length all.old ≡ 256 }
    ensures { Padded edges.now all.new }
{
    for k in 0..256 {
        all[k] = if k < edges.len() { edges[k] } else { f64::NAN };
    }
}

// The last edge of each block of sixteen.
fn put_ends(edges: &[f64; 256], ends: &mut [f64; 16])
    requires { (length edges.now ≡ 256) × (length ends.old ≡ 16) }
    ensures { BlockEnds ends.new edges.now }
{
    for i in 0..16 {
        ends[i] = edges[16 * i + 15];
    }
}

// A scale for the search: its edges with NaNs behind them in blocks of sixteen, and the last of each block. Both stand
// where they were made: a struct that holds them is copied by a `memcpy`, which C's caller would have to bring.
#[derive(Clone, Copy)]
struct Blocks<'a> {
    edges: &'a [f64; 256],
    ends: &'a [f64; 16],
    // How many have no NaN.
    full: usize,
    ghost levels: { Levels full ends.now edges.now },
    ghost all_ends: { length ends.now ≡ 16 },
}

impl<'a> Blocks<'a> {
    // How many edges are at or below a price: of the full blocks those that are so to their end, then the edges of the next
    // block. No branch turns on the price, as vector code needs it; a chain of `filter` and `count` has one.
    fn shade(&self, price: f64) -> usize
        ensures { result ≡ shade_of self.now.edges.now price }
    {
        let edges = self.edges;
        let ends = self.ends;
        let mut whole = 0;
        for end in &ends[..self.full] {
            if *end <= price {
                whole += 1;
            }
        }
        let base = 16 * whole;
        let mut count = 0;
        for edge in &edges[base..base + 16] {
            if *edge <= price {
                count += 1;
            }
        }
        base + count
    }

    // The shade of both ends, or the hatch. The high has the low's shade unless the next edge is at or below it too.
    fn index(&self, quote: Quote) -> u8
        requires { not_quote quote ≡ false }
        ensures { result ≡ index_of self.now.edges.now quote }
    {
        let edges = self.edges;
        let low = self.shade(quote.low);
        let next = edges[low];
        if next <= quote.high { HATCH } else { low as u8 }
    }
}

// Whether each low and its high are a quote.
fn are_quotes(lows: &[f64], highs: &[f64]) -> bool
    requires { length lows.now ≤ length highs.now }
    ensures { result ≡ not (some_not_quote lows.now highs.now (length lows.now)) }
{
    lows.iter().zip(highs).all(|(low, high)| Quote {
        low: *low,
        high: *high,
    }
    .is_quote())
}

// Paints the quotes.
fn fill(edges: &[f64], lows: &[f64], highs: &[f64], plane: &mut [u8])
    requires lows_in_bounds { length lows.now ≤ length highs.now }
    requires plane_in_bounds { length lows.now ≤ length plane.old }
    requires edges_rise { not_scale edges.now ≡ false }
    requires all_quotes { some_not_quote lows.now highs.now (length lows.now) ≡ false }
    ensures { plane.new ≡ put plane.old 0 (indices_of edges.now lows.now highs.now) }
{
    let mut all = [0.0; 256];
    let mut ends = [0.0; 16];
    put_edges(edges, &mut all);
    put_ends(&all, &mut ends);
    let blocks = Blocks {
        edges: &all,
        ends: &ends,
        full: edges.len() / 16,
    };
    for k in 0..lows.len() {
        plane[k] = blocks.index(Quote {
            low: lows[k],
            high: highs[k],
        });
    }
}

// Paints the quotes of two lists into the plane, an index a cell, or changes nothing and says why.
pub fn shade_quotes(
    edges: &[f64],
    lows: &[f64],
    highs: &[f64],
    plane: &mut [u8],
) -> Result<(), ShadeRefusal>
    ensures { Shaded edges.now lows.now highs.now plane.old plane.new (answer_number result) }
{
    let n = lows.len();
    if highs.len() < n {
        return Err(ShadeRefusal::ListsTooShort);
    }
    if plane.len() < n {
        return Err(ShadeRefusal::ListsTooShort);
    }
    if !is_scale(edges) {
        return Err(ShadeRefusal::NotScale);
    }
    if !are_quotes(lows, highs) {
        return Err(ShadeRefusal::NotQuote);
    }
    fill(edges, lows, highs, plane);
    Ok(())
}
