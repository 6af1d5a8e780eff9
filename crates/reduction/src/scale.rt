// The root part of the share as a whole number of units, exactly rounded down.
ghost use Rattle.std.specs.Prelude.{◌≡◌, ◌*◌, ◌-◌, ◌^◌, ◌≤◌};
ghost use Rattle.reduction.specs.Scale.{root_scale};
ghost use Rattle.reduction.specs.inner.ShareBounds.{fits};

use crate::InfluenceArea;

// An influence area at which the formula may leave the root: past the cap, and before the least share.
#[derive(Clone, Copy)]
pub struct RootArea {
    pub influence: InfluenceArea,
    pub ghost past_cap: { 3713 ≤ influence.0 },
    pub ghost before_least: { influence.0 ≤ 92821 },
}

// (914 × 2²⁰)², the square of a scale in units of 2⁻²⁰ times 25 X.
const ROOT_SQUARE: u64 = 918527615797559296;

// No root is larger in these units.
const MOST_NEAR: u64 = 4194304;

// Nor in units of 2⁻¹⁹.
const MOST: u64 = 1572863;

impl RootArea {
    // A chord at the influence area: it falls by so much a dm², to 0 and no further.
    fn chord(self, height: u64, fall: u64) -> u64
        requires { fall ≤ 279 }
        ensures { result ≡ height - fall * self.influence.0 }
    {
        height.saturating_sub(fall * self.influence.0)
    }

    // About 914 / (5 √X) in units of 2⁻²⁰, to 2 %: the highest of six chords of the curve, which
    // takes no branch.
    fn highest_chord(self) -> u64
        ensures { (1 ≤ result) × (result ≤ 2 ^ 22) }
    {
        let low = self.chord(4141000, 279).max(self.chord(3170000, 125));
        let middle = self.chord(2425000, 56).max(self.chord(1854000, 25));
        let high = self.chord(1410000, 11).max(self.chord(1084000, 5));
        low.max(middle).max(high)
    }

    // One of Newton's steps, with one division: it never ends below the root, rounded down.
    fn nearer(self, near: u64) -> u64
        requires { (1 ≤ near) × (near ≤ 2 ^ 22) }
        ensures { (2 * root_scale self.influence ≤ result) × (result ≤ 2 ^ 48) }
    {
        (near + ROOT_SQUARE / (25 * self.influence.0 * near)) / 2
    }

    // About 914 / (5 √X) in units of 2⁻²⁰, to 2 in 10,000.
    pub fn near_scale(self) -> u64
        ensures { (2 * root_scale self.influence ≤ result) × (result ≤ 2 ^ 48) }
    {
        self.nearer(self.highest_chord())
    }

    // Whether a scale in units of 2⁻¹⁹ is not above the root.
    fn fits(self, scale: u64) -> bool
        requires { scale ≤ 1572863 }
        ensures { result ≡ fits self.influence scale }
    {
        25 * self.influence.0 * (scale * scale) <= ROOT_SQUARE / 4
    }

    // The scale in units of 2⁻¹⁹. From an estimate to 2 in 10,000 one step ends on it, or one above.
    #[tactic(auto, using(crate::proofs::Scales::scale_some))]
    pub fn rounded_down(self) -> u64
        ensures { result ≡ root_scale self.influence }
    {
        let near = self.near_scale().min(MOST_NEAR);
        let above = (self.nearer(near) / 2).min(MOST);
        (0..above + 1)
            .rev()
            .find(|scale| self.fits(*scale))
            .unwrap()
    }
}
