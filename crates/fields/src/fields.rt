// Reads the words behind a row's name.
ghost use Rattle.std.specs.Prelude.{◌≡◌, ◌+◌, ◌≤◌, true, [], map, length, Decides, MatchOption, ◌≢◌};
ghost use Rattle.words.specs.Texts.{texts};
ghost use Rattle.rows.specs.Kinds.{count_of, in_order};
ghost use Rattle.rows.specs.declared.kind.Stage.TheVariants.{Calls};
ghost use Rattle.rows.specs.Rows.{number, rule, kind_of, fields_of, rule_text, written};
ghost use Rattle.rows.specs.Wants.{wants, rule_name, Allowed, Ranged};
ghost use Rattle.rows.specs.declared.kind.Kind.TheVariants.{Link as LinkKind};
ghost use Rattle.merge.specs.declared.choice.Choice.{Choice as Rules};
ghost use Rattle.rows.specs.declared.row.Row.TheVariants as rowed;
ghost use Rattle.fields.specs.Taking.{want, from_one, numbered, Got, Judged, rest_of};

use crate::rest::Rest;
use merge::Choice;
use network::Link;
use rows::{CallRow, Counts, Kind, Row, RowFault};

// A number from `low` to `high`. std's inclusive range is not `Copy`, and remembers whether it is spent:
// each contract here would have to say that it is not.
#[derive(Clone, Copy)]
pub struct Range {
    pub low: u16,
    pub high: u16,
}

// The ranges of the file format: what a row's numbers may be, but for nodes and links.
const NODES: Range = Range { low: 2, high: 32 };

const LINKS: Range = Range { low: 1, high: 48 };

const STEPS: Range = Range { low: 1, high: 63 };

const FLOW: Range = Range { low: 1, high: 200 };

const ROOM: Range = Range { low: 1, high: 2000 };

const ANY: Range = Range {
    low: 0,
    high: 65535,
};

impl Range {
    // From 1 on.
    fn up_to(high: u16) -> Range
        ensures { result ≡ from_one high }
    {
        Range { low: 1, high }
    }

    fn contains(self, value: u16) -> bool
        ensures { Decides result ((self.low ≤ value) × (value ≤ self.high)) }
    {
        (self.low..=self.high).contains(&value)
    }
}

// The next word, a number in range.
fn number_in(rest: &mut Rest, range: Range) -> Result<u16, RowFault>
    requires { rest_of rest.old ≢ [] }
    ensures got { Got (rest_of rest.old) (rest_of rest.new) rest.old.words.at.line rest.new.words.at.place result (want range) number }
    ensures kept { rest.new.words.at.line ≡ rest.old.words.at.line }
{
    let word = rest.word();
    let fitting = word.number().filter(|value| range.contains(*value));
    fitting.ok_or(RowFault::Value { at: word.at() })
}

// The numbers of a row that has as many words left as there are ranges.
fn numbers<const N: usize>(rest: &mut Rest, ranges: [Range; N]) -> Result<[u16; N], RowFault>
    requires counted { length (rest_of rest.old) ≡ N }
    ensures { Judged (map want ranges.entry) (rest_of rest.old) rest.old.words.at.line result (λ ns. (texts (rest_of rest.old) ≡ map written (numbered ns)) × Allowed (map want ranges.entry) (numbered ns)) }
{
    // By the range's index: a map of the array can't stop at the first word that is refused.
    let mut out = [0; N];
    for (i, range) in ranges.iter().enumerate() {
        out[i] = number_in(rest, *range)?;
    }
    Ok(out)
}

// The next words, the numbers of a link.
fn link_in(rest: &mut Rest, counts: Counts) -> Result<Link, RowFault>
    requires counted { length (rest_of rest.old) ≡ 6 }
    ensures { Judged (wants counts.nodes counts.links LinkKind) (rest_of rest.old) rest.old.words.at.line result (λ k. (texts (rest_of rest.old) ≡ map written (fields_of (rowed.Link k))) × Ranged counts.nodes counts.links (rowed.Link k)) }
{
    let node = Range::up_to(counts.nodes);
    let ranges = [node, node, STEPS, STEPS, FLOW, ROOM];
    let [from, to, free, wave, capacity, storage] = numbers(rest, ranges)?;
    Ok(Link {
        from: from as u8,
        to: to as u8,
        free: free as u8,
        wave: wave as u8,
        capacity: capacity as u8,
        storage,
    })
}

// An impl of TryFrom would have to lie in `merge`, which knows no texts.
fn rule_named(text: &[u8]) -> Option<Choice>
    ensures { MatchOption result ((k : Rules) → text.now ≢ rule_text k) (λ k. text.now ≡ rule_text k) }
{
    match text {
        b"fair" => Some(Choice::Fair),
        b"ramp" => Some(Choice::Ramp),
        b"zip" => Some(Choice::Zip),
        _ => None,
    }
}

// The next word, a rule's name.
fn rule_in(rest: &mut Rest) -> Result<Choice, RowFault>
    requires { rest_of rest.old ≢ [] }
    ensures { Got (rest_of rest.old) (rest_of rest.new) rest.old.words.at.line rest.new.words.at.place result rule_name rule }
{
    let word = rest.word();
    rule_named(word.text()).ok_or(RowFault::Value { at: word.at() })
}

// The next words, those of a call.
fn call_in(rest: &mut Rest, kind: Kind) -> Result<CallRow, RowFault>
    requires counted { length (rest_of rest.old) + 1 ≡ count_of kind }
    requires call { in_order Calls kind ≡ true }
    ensures { Judged (wants 0 0 kind) (rest_of rest.old) rest.old.words.at.line result (λ call. (kind_of (rowed.Call call) ≡ kind) × (texts (rest_of rest.old) ≡ map written (fields_of (rowed.Call call))) × Ranged 0 0 (rowed.Call call)) }
{
    match kind {
        Kind::Book => {
            let [entrance, exit, count] = numbers(rest, [ANY; 3])?;
            Ok(CallRow::Book {
                entrance,
                exit,
                count,
            })
        }
        Kind::Step => {
            let [count] = numbers(rest, [Range { low: 1, ..ANY }])?;
            Ok(CallRow::Step { count })
        }
        _ => Ok(CallRow::Show),
    }
}

// The row of this kind whose words behind the name are left.
pub fn fields(rest: &mut Rest, kind: Kind, counts: Counts) -> Result<Row, RowFault>
    requires counted { length (rest_of rest.old) + 1 ≡ count_of kind }
    ensures { Judged (wants counts.nodes counts.links kind) (rest_of rest.old) rest.old.words.at.line result (λ row. (kind_of row ≡ kind) × (texts (rest_of rest.old) ≡ map written (fields_of row)) × Ranged counts.nodes counts.links row) }
{
    let node = Range::up_to(counts.nodes);
    let row = match kind {
        Kind::Net => {
            let [nodes, links] = numbers(rest, [NODES, LINKS])?;
            Row::Net { nodes, links }
        }
        Kind::Link => {
            let link = link_in(rest, counts)?;
            Row::Link { link }
        }
        Kind::Route => {
            let ranges = [node, node, Range::up_to(counts.links)];
            let [node, exit, link] = numbers(rest, ranges)?;
            Row::Route { node, exit, link }
        }
        Kind::Merge => {
            let rule = rule_in(rest)?;
            Row::Merge { rule }
        }
        Kind::Meter => {
            let [node, rate, period] = numbers(rest, [node, FLOW, STEPS])?;
            Row::Meter { node, rate, period }
        }
        Kind::Go => Row::Go,
        Kind::Book | Kind::Step | Kind::Show => {
            let call = call_in(rest, kind)?;
            Row::Call { call }
        }
    };
    Ok(row)
}
