// The annotations of a whole table: row by row, by the rules of the row's symbol alone, with each child's window at hand.
ghost use Rattle.std.specs.Prelude.{◌≡◌, IfSome, cond, suc, ◌+◌, ◌*◌, ◌%◌, ◌≤◌, ◌<◌, eqb, length, get_or};
ghost use Rattle.model.specs.Lists.{tab};
ghost use Rattle.model.specs.Automaton.{bit?};
ghost use Rattle.model.specs.Table.{SoundTable};
ghost use Rattle.automaton.specs.Stored.{decode};
ghost use Rattle.automaton.specs.Check.{check_of};
ghost use Rattle.document.specs.Rows.{decode_rows};
ghost use Rattle.membership.specs.Cells.{room_of, memory_of, annotations_in};
ghost use Rattle.judging.specs.Cells.{Short};
ghost use Rattle.membership.specs.Entries.{entries_in, add_entries};
ghost use Rattle.judging.specs.Entries.{Grown};
ghost use Rattle.judging.specs.Chains.{class_in};
ghost use Rattle.judging.specs.Search.{tags_in, arity_in, base_in, room_in, class_of, Ready, Windows, Separate, Alike};
ghost use Rattle.membership.specs.Listing.{entries_below};
ghost use Rattle.membership.specs.Plan.{Starts, FirstRules};
ghost use Rattle.judging.specs.Plan.{Planned, read_of, RulesRead, asked_in, unread, rule_found, Before};
ghost use Rattle.judging.specs.Tried.{Fresh};
ghost use Rattle.membership.specs.Annotated.{Annotated};

use crate::chains::{Chains, no_chains, open_window};
use crate::index::SLOTS;
use crate::memory::kept;
use crate::search::{Want, search};
use crate::tried::{Slot, TRIED};
use automaton::{State, arity, header, rule, tags_of};
use base::limits::{MAX_ROWS, MAX_RULES, PLACES, UNUSED};
use document::rows::{Row, count, symbol};
use membership::{Plan, bounds, cell_at, first_rules, narrow, own_place, room_of};

const ROWS: usize = MAX_ROWS as usize;

const RULES: usize = MAX_RULES as usize;

// What is read of a rule once for all rows: its target with the target's tags, the tags that it forgets, and its children's states.
#[derive(Clone, Copy)]
pub struct ReadRule {
    pub target: State,
    pub tags: u16,
    pub forget: u16,
    pub states: [State; PLACES],
}

// The plan of row i, with the windows of its children's rows.
fn plan_for(
    rows: &[u16],
    starts: &[u16],
    i: Row,
    tags: usize,
    arity: usize,
    base: usize,
    room: usize,
) -> Plan
    requires { arity ≤ 4 }
    ensures { Planned rows.now starts.now i.0 tags arity base room arity result }
{
    let low = bounds(rows, starts, i, arity, 0);
    let high = bounds(rows, starts, i, arity, 1);
    Plan {
        row: i,
        tags,
        arity,
        base,
        room,
        low,
        high,
    }
}

fn read_rule(set: &[u8], r: u16) -> ReadRule
    ensures { result ≡ read_of (decode set.now) r }
{
    let rule = rule(set, r);
    let target = rule.target;
    let states = rule.places;
    ReadRule {
        target,
        tags: tags_of(set, target),
        forget: rule.forget,
        states,
    }
}

// The first n rules are read.
fn read_rules(set: &[u8], n: u16, rules: &mut [ReadRule; RULES])
    requires { n ≤ 1024 }
    ensures { RulesRead (decode set.now) n rules.new }
{
    for r in 0..n {
        rules[usize::from(r)] = read_rule(set, r);
    }
}

// What rule r asks on a row.
fn ask(rules: &[ReadRule; RULES], row: Row, r: u16) -> Want
    requires { r < 1024 }
    ensures { result ≡ asked_in rules.now row.0 r }
{
    let read = rules[usize::from(r)];
    let states = read.states;
    Want {
        row,
        rule: r,
        target: read.target,
        forget: read.forget,
        states,
    }
}

// The tags of rule r's target.
fn target_tags(rules: &[ReadRule; RULES], r: u16) -> u16
    requires { r < 1024 }
    ensures { result ≡ (get_or rules.now r unread).tags }
{
    rules[usize::from(r)].tags
}

// The memory of a mask's tags, each going to the row.
fn own_memory(mask: u16, row: Row, tags: usize) -> [u16; 16]
    requires { (tags ≤ 16) × (row.0 < 65535) }
    ensures { (memory_of tags result ≡ tab tags (λ k. cond (bit? mask k) (suc row.0) 0)) × Short tags result }
{
    let mut out = [0u16; 16];
    if mask == 0 {
        return out;
    }
    let mut rest = mask;
    for k in 0..tags {
        out[k] = own_place(rest, row);
        rest = rest / 2;
    }
    out
}

// The windows of a row's children are opened.
fn open_windows(work: &[u16], plan: &Plan, chains: &mut Chains)
    requires { Separate plan.now work.now }
    ensures { Windows (class_in work.now) plan.now (arity_in plan.now) chains.new.heads chains.new.links }
{
    let width = plan.arity;
    for p in 0..width {
        open_window(work, p, plan.low[p], plan.high[p], chains);
    }
}

// What rule r makes on a row. The choices start from the target's tags that the rule does not forget, so that a child annotation that names one of them is out at once: its rows are lower, and the last step would refuse it.
fn by_rule(
    rules: &[ReadRule; RULES],
    work: &mut [u16],
    tried: &mut [Slot; TRIED],
    slots: &mut [u16; SLOTS],
    plan: &Plan,
    row: Row,
    r: u16,
    n: usize,
    children: &mut [u16; PLACES],
    chains: &Chains,
) -> Option<usize>
    requires { Ready plan.now work.old slots.old n × (row.0 < 1024) × (r < 1024) × Fresh row.0 r tried.old × Windows (class_of (annotations_in (tags_in plan.now) work.old (base_in plan.now))) plan.now (arity_in plan.now) chains.now.heads chains.now.links }
    ensures grown { Grown n (room_in plan.now) (tags_in plan.now) (add_entries (entries_in (tags_in plan.now) work.old n) (rule_found (annotations_in (tags_in plan.now) work.old (base_in plan.now)) plan.now rules.now row.0 r children.old)) work.new slots.new result }
    ensures alike { Alike 0 (arity_in plan.now) children.old children.new × IfSome result (λ _. Fresh row.0 (r + 1) tried.new) }
{
    let asked = ask(rules, row, r);
    let own = own_memory(target_tags(rules, r), row, plan.tags);
    let early = kept(&own, asked.forget, plan.tags);
    search(
        work, &own, plan, &asked, plan.arity, n, &early, children, tried, slots, chains,
    )
}

// The annotations of row i, by the rules of its symbol, added to those of the rows below.
fn by_row(
    set: &[u8],
    rows: &[u16],
    starts: &[u16],
    firsts: &[u16],
    rules: &[ReadRule; RULES],
    work: &mut [u16],
    tried: &mut [Slot; TRIED],
    slots: &mut [u16; SLOTS],
    chains: &mut Chains,
    i: Row,
    tags: usize,
    room: usize,
    n: usize,
) -> Option<usize>
    requires sound { (check_of set.now ≡ 0) × SoundTable (decode set.now) (decode_rows rows.now) }
    requires before { Before (decode set.now) (decode_rows rows.now) i.0 room tags work.old slots.old n }
    requires starts { Starts (decode set.now) (decode_rows rows.now) starts.now i.0 × FirstRules (decode set.now) firsts.now }
    requires rules_read { RulesRead (decode set.now) (length (decode set.now).rules) rules.now × Fresh i.0 0 tried.old }
    ensures { Grown n room tags (entries_below (decode set.now) (decode_rows rows.now) (suc i.0)) work.new slots.new result × IfSome result (λ _. Fresh (suc i.0) 0 tried.new) }
{
    let f = symbol(rows, i);
    let width = usize::from(arity(set, f));
    let plan = plan_for(rows, starts, i, tags, width, n, room);
    open_windows(work, &plan, chains);
    let mut children = [UNUSED; PLACES];
    let at = usize::from(f);
    let first = cell_at(firsts, at);
    let end = cell_at(firsts, at + 1);
    let mut m = n;
    for r in first..end {
        m = by_rule(
            rules,
            work,
            tried,
            slots,
            &plan,
            i,
            r,
            m,
            &mut children,
            chains,
        )?;
    }
    Some(m)
}

// The number of annotations of all rows, left in the work space, or none where they do not fit.
pub(crate) fn annotate(set: &[u8], rows: &[u16], work: &mut [u16]) -> Option<usize>
    requires { (check_of set.now ≡ 0) × SoundTable (decode set.now) (decode_rows rows.now) }
    ensures { Annotated (decode set.now) (decode_rows rows.now) (room_of (length work.old)) work.new result }
{
    let room = room_of(work.len());
    let head = header(set);
    let tags = usize::from(head.tags);
    let end = count(rows);
    let firsts = first_rules(set);
    let mut starts = [0u16; ROWS];
    let states = [State(0); PLACES];
    let mut rules = [ReadRule {
        target: State(0),
        tags: 0,
        forget: 0,
        states,
    }; RULES];
    read_rules(set, head.rules, &mut rules);
    let memory = [0u16; 16];
    let mut tried = [Slot {
        row: 0,
        stamp: 0,
        memory,
    }; TRIED];
    let mut slots = [0u16; SLOTS];
    let mut chains = no_chains();
    let mut n = 0;
    for i in 0..end {
        starts[i] = narrow(n);
        n = by_row(
            set,
            rows,
            &starts,
            &firsts,
            &rules,
            work,
            &mut tried,
            &mut slots,
            &mut chains,
            Row(narrow(i)),
            tags,
            room,
            n,
        )?;
    }
    Some(n)
}
