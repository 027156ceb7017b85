// What the states of a sheet come to, fluid by fluid (docs/RULES.md, "The report"): a report, and the one
// step that adds a reply to it. The report of a whole sheet and that of one in parts are this step over its
// states.
#![tactic(auto)]

ghost use Rattle.std.specs.Prelude.{◌≡◌, [], get_or};
ghost use Rattle.tallies.specs.Steps.{plus, counted, further, with_reply, adds_to, empty_report};
ghost use Rattle.tallies.specs.Rows.{row_of, section_at, report_at};

use replies::Figures;

// The smallest or the largest gas density so far, and the line of the first state that reaches it. Line 0: no state
// was answered so far. It's no Option, since C may keep any density beside line 0 in a row, and gets it back (woolyard_report_take).
#[derive(Clone, Copy, Default)]
pub struct Reached {
    pub density: u64,
    pub line: u64,
}

// What the states of one section come to: how many were of each kind, how many were refused under each number, and
// the gas densities of those that were answered.
#[derive(Clone, Copy, Default)]
pub struct Section {
    pub one: u64,
    pub split: u64,
    pub temperature_too_low: u64,
    pub temperature_too_high: u64,
    pub pressure_too_low: u64,
    pub pressure_too_high: u64,
    pub sum: u64,
    pub smallest: Reached,
    pub largest: Reached,
}

// ONE, SPLIT, 21, 22, 31, 32, the sum, the smallest density and its line, the largest and its line.
pub type Row = [u64; 11];

// All sections of a sheet.
#[derive(Clone, Copy, Default)]
pub struct Report {
    pub hydrogen: Section,
    pub oxygen: Section,
    pub nitrogen: Section,
}

// In numbers that have an end: what would pass it adds nothing. Nothing of a sheet's states does.
pub fn plus(total: u64, more: u64) -> u64
    ensures { result ≡ plus total more }
{
    total.checked_add(more).unwrap_or(total)
}

// One more where a figure of the reply is the one that is counted.
fn counted(count: u64, figure: u64, of: u64) -> u64
    ensures { result ≡ counted count figure of }
{
    if figure == of { plus(count, 1) } else { count }
}

impl Reached {
    // What goes beyond all before it is reached, and so is the first of all. A density that is only reached again changes
    // nothing: the first line stays.
    fn further(self, next: Reached, goes_beyond: bool) -> Reached
        ensures { result ≡ further (λ density other. goes_beyond) self next.density next.line }
    {
        if self.line == 0 || goes_beyond {
            next
        } else {
            self
        }
    }
}

// A section as a row, in which C has its figures.
impl From<Section> for Row {
    ghost from_gives = { λ section row. row ≡ row_of section };

    fn from(section: Section) -> Row {
        let smallest = section.smallest;
        let largest = section.largest;
        [
            section.one,
            section.split,
            section.temperature_too_low,
            section.temperature_too_high,
            section.pressure_too_low,
            section.pressure_too_high,
            section.sum,
            smallest.density,
            smallest.line,
            largest.density,
            largest.line,
        ]
    }
}

impl From<Row> for Section {
    ghost from_gives = { λ row section. section ≡ section_at row };

    fn from(row: Row) -> Section {
        let [
            one,
            split,
            temperature_too_low,
            temperature_too_high,
            pressure_too_low,
            pressure_too_high,
            sum,
            smallest,
            first_of_smallest,
            largest,
            first_of_largest,
        ] = row;
        Section {
            one,
            split,
            temperature_too_low,
            temperature_too_high,
            pressure_too_low,
            pressure_too_high,
            sum,
            smallest: Reached {
                density: smallest,
                line: first_of_smallest,
            },
            largest: Reached {
                density: largest,
                line: first_of_largest,
            },
        }
    }
}

// The report of three rows, hydrogen's first.
impl From<[Row; 3]> for Report {
    ghost from_gives = { λ rows report. report ≡ report_at (get_or rows 0 []) (get_or rows 1 []) (get_or rows 2 []) };

    fn from(rows: [Row; 3]) -> Report {
        let [hydrogen, oxygen, nitrogen] = rows;
        Report {
            hydrogen: Section::from(hydrogen),
            oxygen: Section::from(oxygen),
            nitrogen: Section::from(nitrogen),
        }
    }
}

// Before the first state.
pub fn empty() -> Report
    ensures { result ≡ empty_report }
{
    Report::default()
}

impl Section {
    // A refused state is counted, and has no density.
    fn add_reply(&mut self, line: u64, reply: Figures)
        ensures { self.new ≡ with_reply self.old (record { line = line; figures = reply }) }
    {
        let density = reply.gas_density;
        self.one = counted(self.one, reply.kind, 1);
        self.split = counted(self.split, reply.kind, 2);
        self.temperature_too_low = counted(self.temperature_too_low, reply.number, 21);
        self.temperature_too_high = counted(self.temperature_too_high, reply.number, 22);
        self.pressure_too_low = counted(self.pressure_too_low, reply.number, 31);
        self.pressure_too_high = counted(self.pressure_too_high, reply.number, 32);
        if reply.number == 0 {
            let next = Reached { density, line };
            self.sum = plus(self.sum, density);
            self.smallest = self.smallest.further(next, density < self.smallest.density);
            self.largest = self.largest.further(next, self.largest.density < density);
        }
    }
}

impl Report {
    // The step: the reply to a state of this fluid, on this line. Where there is no such fluid there is no section, and
    // nothing is added.
    pub fn add(&mut self, fluid: u64, line: u64, reply: Figures)
        ensures { self.new ≡ adds_to self.old fluid (record { line = line; figures = reply }) }
    {
        match fluid {
            0 => self.hydrogen.add_reply(line, reply),
            1 => self.oxygen.add_reply(line, reply),
            2 => self.nitrogen.add_reply(line, reply),
            _ => {}
        }
    }
}
