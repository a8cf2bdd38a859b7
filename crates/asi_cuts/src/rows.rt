//! Rows of cuts: offsets of one region that lie a stride apart.
ghost use Rattle.std.specs.Prelude.{◌≡◌, ◌-◌, ◌↔◌, ◌<◌, ◌≤◌, ◌*◌, ◌+ℤ◌, ◌≤ℤ◌, ◌<ℤ◌, ◌⊎◌, ℕ, negsuc, pos};
ghost use Rattle.asi_cuts.specs.declared.set.Cut.{Cut};
ghost use Rattle.asi_cuts.specs.Adding.{IsOf};
ghost use Rattle.asi_cuts.specs.Cuts.{IsMoved, IsRepeated, element};

use crate::set::Cut;
use image_map::RegionId;

/// The offsets start + shift, start + shift + stride and so on, `count` of them.
#[derive(Clone, Copy)]
pub(crate) struct Row {
    pub region: RegionId,
    pub start: i32,
    pub shift: u32,
    pub stride: u32,
    pub count: u32,
}

/// One offset, so far above a start.
pub(crate) fn one(region: RegionId, start: i32, shift: u32) -> Row
    ensures { result ≡ record { region = region; start = start; shift = shift; stride = 1; count = 1 } }
{
    Row {
        region,
        start,
        shift,
        stride: 1,
        count: 1,
    }
}

/// The starts of elements.
pub(crate) fn elements(region: RegionId, start: i32, stride: u32, count: u32) -> Row
    ensures { result ≡ record { region = region; start = start; shift = 0; stride = stride; count = count } }
{
    Row {
        region,
        start,
        shift: 0,
        stride,
        count,
    }
}

/// The same offsets with a stride above 0: where it is 0, all are the first.
pub(crate) fn spread(row: &Row) -> Row
    ensures region { result.region ≡ row.now.region }
    ensures stride { 1 ≤ result.stride }
    ensures same { (x : Cut) → IsOf result x ↔ IsOf row.now x }
{
    if row.stride > 0 {
        return *row;
    }
    Row {
        region: row.region,
        start: row.start,
        shift: row.shift,
        stride: 1,
        count: row.count.min(1),
    }
}

// How far `to` lies above `from`.
fn rise(from: i64, to: i64) -> u64
    requires low { (negsuc 8589934591) ≤ℤ from }
    requires high { to ≤ℤ pos 8589934592 }
    requires order { from ≤ℤ to }
    ensures { to ≡ from +ℤ pos result }
{
    (to - from) as u64
}

/// How many strides of `stride` go into the distance from `from` up to `to`, and one: 0 where `to` lies below.
fn steps(from: i64, to: i64, stride: u32) -> u64
    requires some { 1 ≤ stride }
    requires low { (negsuc 8589934591) ≤ℤ from }
    requires high { to ≤ℤ pos 8589934592 }
    ensures { (k : ℕ) → ((from +ℤ pos (k * stride)) ≤ℤ to) ↔ (k < result) }
{
    if to < from {
        return 0;
    }
    rise(from, to) / u64::from(stride) + 1
}

// How far `to` lies above `from`, or 0 where it doesn't.
fn distance(from: i32, to: i32) -> u32
    ensures above { from ≤ℤ to → to ≡ from +ℤ pos result }
    ensures below { to <ℤ from → result ≡ 0 }
{
    if to < from {
        return 0;
    }
    (i64::from(to) - i64::from(from)) as u32
}

// How many elements reach past a distance: all, or all but the last, which is `len` bytes long.
fn reaching(count: u32, len: u32, distance: u32) -> u32
    ensures all { distance < len → result ≡ count }
    ensures others { len ≤ distance → result ≡ count - 1 }
{
    if distance < len {
        count
    } else {
        count.saturating_sub(1)
    }
}

/// Where an offset lies inside an element of a row: the offsets as far inside each element that reaches so far, where the elements are
/// `len` bytes long and each but the last reaches as far as the next begins. Else no offset.
pub(crate) fn repeated(starts: &Row, len: u32, offset: i32) -> Row
    ensures region { result.region ≡ starts.now.region }
    ensures carried { (x : Cut) → IsOf result x → IsRepeated starts.now.start starts.now.stride starts.now.count len offset x.offset }
    ensures all { (x : Cut) → x.region ≡ starts.now.region → IsRepeated starts.now.start starts.now.stride starts.now.count len offset x.offset → IsOf result x ⊎ (x.offset ≡ offset) }
{
    if starts.stride == 0 {
        return starts.repeats(0, 0);
    }
    let inside = distance(starts.start, offset);
    let shift = inside % starts.stride;
    let reaching = reaching(starts.count, len, shift);
    if shift == 0 {
        return starts.repeats(0, 0);
    }
    if inside / starts.stride >= reaching {
        return starts.repeats(0, 0);
    }
    starts.repeats(shift, reaching)
}

/// Two ranges of `len` bytes.
#[derive(Clone, Copy)]
pub(crate) struct Pair {
    pub a: RegionId,
    pub a_start: i32,
    pub b: RegionId,
    pub b_start: i32,
    pub len: u32,
}

impl Pair {
    /// The same ranges the other way round.
    pub(crate) fn turned(&self) -> Pair
        ensures { result ≡ record { a = self.now.b; a_start = self.now.b_start; b = self.now.a; b_start = self.now.a_start; len = self.now.len } }
    {
        Pair {
            a: self.b,
            a_start: self.b_start,
            b: self.a,
            b_start: self.a_start,
            len: self.len,
        }
    }

    // 1 where a cut lies so far inside the first range, else 0.
    fn count(&self, region: RegionId, shift: u32) -> u32
        ensures some { region ≡ self.now.a → 0 < shift → shift < self.now.len → result ≡ 1 }
        ensures only { 0 < result → (region ≡ self.now.a) × (0 < shift) × (shift < self.now.len) × (result ≡ 1) }
    {
        if region != self.a {
            return 0;
        }
        if shift == 0 {
            return 0;
        }
        u32::from(shift < self.len)
    }

    /// Where a cut lies inside the first range: the offset as far inside the second. Else no offset.
    pub(crate) fn moved(&self, cut: &Cut) -> Row
        ensures { (x : Cut) → IsOf result x ↔ IsMoved self.now.a self.now.a_start self.now.b self.now.b_start self.now.len cut.now.region cut.now.offset x.region x.offset }
    {
        let shift = distance(self.a_start, cut.offset);
        Row {
            region: self.b,
            start: self.b_start,
            shift,
            stride: 1,
            count: self.count(cut.region, shift),
        }
    }
}

impl Row {
    /// The row with another shift and count.
    fn repeats(&self, shift: u32, count: u32) -> Row
        ensures { result ≡ record { region = self.now.region; start = self.now.start; shift = shift; stride = self.now.stride; count = count } }
    {
        Row {
            region: self.region,
            start: self.start,
            shift,
            stride: self.stride,
            count,
        }
    }

    /// The row with another shift.
    pub(crate) fn shifted(&self, shift: u32) -> Row
        ensures { result ≡ record { region = self.now.region; start = self.now.start; shift = shift; stride = self.now.stride; count = self.now.count } }
    {
        self.repeats(shift, self.count)
    }

    /// The offset with a number, which isn't far off.
    pub(crate) fn offset(&self, number: u64) -> i64
        requires { (element self.now.start self.now.stride number +ℤ pos self.now.shift) ≤ℤ pos 2147483647 }
        ensures { result ≡ element self.now.start self.now.stride number +ℤ pos self.now.shift }
    {
        self.first() + (number * u64::from(self.stride)) as i64
    }

    /// The first offset.
    fn first(&self) -> i64
        ensures value { result ≡ self.now.start +ℤ pos self.now.shift }
        ensures low { (negsuc 2147483647) ≤ℤ self.now.start }
        ensures high { result ≤ℤ pos 6442450942 }
    {
        i64::from(self.start) + i64::from(self.shift)
    }

    /// How many of the row's offsets without an end lie below a bound.
    pub(crate) fn number_below(&self, low: i32) -> u64
        requires { 1 ≤ self.now.stride }
        ensures { (k : ℕ) → ((element self.now.start self.now.stride k +ℤ pos self.now.shift) <ℤ low) ↔ (k < result) }
    {
        steps(self.first(), i64::from(low) - 1, self.stride)
    }

    /// How many of the row's offsets don't lie above a bound.
    pub(crate) fn number_up_to(&self, high: i32) -> u64
        requires { 1 ≤ self.now.stride }
        ensures { (k : ℕ) → ((k < self.now.count) × ((element self.now.start self.now.stride k +ℤ pos self.now.shift) ≤ℤ high)) ↔ (k < result) }
    {
        steps(self.first(), i64::from(high), self.stride).min(u64::from(self.count))
    }
}
