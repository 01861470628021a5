// The C interface: slices pass as pointer and count of elements, and every function answers one 64-bit number (include/cidhomba.h).
#![tactic(auto)]

mod code; // code.rt: answers as numbers

ghost use Rattle.std.specs.Prelude.{◌≡◌, length};
ghost use Rattle.model.specs.Refusal.{unless, answer_map};
ghost use Rattle.model.specs.Boolean.{union, product};
ghost use Rattle.automaton.specs.declared.Form.TheVariants.{Narrow, Wide, Isolating};
ghost use Rattle.automaton.specs.Check.{check_of};
ghost use Rattle.document.specs.Check.{document_check_of};
ghost use Rattle.runs.specs.Check.{check_run_of};
ghost use Rattle.boolean.specs.Answer.{combined_of, combined_space};
ghost use Rattle.forms.specs.Move.{moved_of, moved_space};
ghost use Rattle.emptiness.specs.Answer.{emptiness_of};
ghost use Rattle.emptiness.specs.Answer.{space_after as witness_space};
ghost use Rattle.term.specs.Read.{reading_map, read_of};
ghost use Rattle.term.specs.Read.{space_after as read_space};
ghost use Rattle.jsonrows.specs.Read.{reading_map as json_map, read_of as json_of};
ghost use Rattle.jsonrows.specs.Answer.{space_after as json_space};
ghost use Rattle.spelling.specs.Write.{write_of};
ghost use Rattle.spelling.specs.Write.{space_after as write_space};
ghost use Rattle.cidhomba.specs.Code.{check_code, JudgingCode, count_code, witness_code, read_code, json_code};

use code::{code, text_code};

// 0, or the refusal of the set.
#[unsafe(no_mangle)]
pub extern "C" fn cidhomba_check_automaton(set: &[u8]) -> u64
    ensures { result ≡ check_code (unless (check_of set.now) tt) }
{
    code(automaton::check(set))
}

// 0, or the refusal of the set or of the table.
#[unsafe(no_mangle)]
pub extern "C" fn cidhomba_check_document(set: &[u8], rows: &[u16]) -> u64
    ensures { result ≡ check_code (unless (document_check_of set.now rows.now) tt) }
{
    code(document::check(set, rows))
}

// 0, or the refusal of the set, of the table or of the run.
#[unsafe(no_mangle)]
pub extern "C" fn cidhomba_check_run(set: &[u8], rows: &[u16], run: &[u16]) -> u64
    ensures { result ≡ check_code (unless (check_run_of set.now rows.now run.now) tt) }
{
    code(runs::check(set, rows, run))
}

// The number of steps of the run handed back for a yes, 0 for a no, or the refusal of the set, of the table or of the judging.
#[unsafe(no_mangle)]
pub extern "C" fn cidhomba_membership(
    set: &[u8],
    rows: &[u16],
    work: &mut [u16],
    run: &mut [u16],
) -> u64
    ensures { JudgingCode set.now rows.now work.old run.old result work.new run.new }
{
    code(membership::judge(set, rows, work, run))
}

// The length of the union written, or the refusal of the first set, of the second, or of both.
#[unsafe(no_mangle)]
pub extern "C" fn cidhomba_union(first: &[u8], second: &[u8], out: &mut [u8]) -> u64
    ensures answer { result ≡ count_code (combined_of union first.now second.now out.old) }
    ensures space { out.new ≡ combined_space union first.now second.now out.old }
{
    code(boolean::union(first, second, out))
}

// The length of the product written, or the refusal of the first set, of the second, or of both.
#[unsafe(no_mangle)]
pub extern "C" fn cidhomba_product(first: &[u8], second: &[u8], out: &mut [u8]) -> u64
    ensures answer { result ≡ count_code (combined_of product first.now second.now out.old) }
    ensures space { out.new ≡ combined_space product first.now second.now out.old }
{
    code(boolean::product(first, second, out))
}

// The length of the set written in the wide form, or its refusal.
#[unsafe(no_mangle)]
pub extern "C" fn cidhomba_widen_states(set: &[u8], out: &mut [u8]) -> u64
    ensures answer { result ≡ count_code (moved_of Narrow Wide set.now out.old) }
    ensures space { out.new ≡ moved_space Narrow Wide set.now out.old }
{
    code(forms::widen_states(set, out))
}

// The length of the set written in the narrow form, or its refusal.
#[unsafe(no_mangle)]
pub extern "C" fn cidhomba_narrow_states(set: &[u8], out: &mut [u8]) -> u64
    ensures answer { result ≡ count_code (moved_of Wide Narrow set.now out.old) }
    ensures space { out.new ≡ moved_space Wide Narrow set.now out.old }
{
    code(forms::narrow_states(set, out))
}

// The length of the set written with rules of 14 bytes, or its refusal.
#[unsafe(no_mangle)]
pub extern "C" fn cidhomba_widen_rules(set: &[u8], out: &mut [u8]) -> u64
    ensures answer { result ≡ count_code (moved_of Wide Isolating set.now out.old) }
    ensures space { out.new ≡ moved_space Wide Isolating set.now out.old }
{
    code(forms::widen_rules(set, out))
}

// The length of the set written with rules of 12 bytes, or its refusal.
#[unsafe(no_mangle)]
pub extern "C" fn cidhomba_narrow_rules(set: &[u8], out: &mut [u8]) -> u64
    ensures answer { result ≡ count_code (moved_of Isolating Wide set.now out.old) }
    ensures space { out.new ≡ moved_space Isolating Wide set.now out.old }
{
    code(forms::narrow_rules(set, out))
}

// 0 for dead; for live the number of rows, which stand at the front of the space, and 65536 times the levels; or the refusal.
#[unsafe(no_mangle)]
pub extern "C" fn cidhomba_witness(set: &[u8], rows: &mut [u16]) -> u64
    ensures answer { result ≡ witness_code (emptiness_of set.now (length rows.old)) }
    ensures space { rows.new ≡ witness_space set.now rows.old }
{
    code(emptiness::witness(set, rows))
}

// The number of rows written, or the refusal of the set, of the names or of the text.
#[unsafe(no_mangle)]
pub extern "C" fn cidhomba_read_term<'a>(
    set: &[u8],
    site: &'a [u8],
    built_in: &'a [u8],
    text: &[u8],
    rows: &mut [u16],
) -> u64
    ensures answer { result ≡ read_code (reading_map length (read_of set.now site.now built_in.now text.now (length rows.old))) }
    ensures space { rows.new ≡ read_space (read_of set.now site.now built_in.now text.now (length rows.old)) rows.old }
{
    text_code(term::read(set, site, built_in, text, rows))
}

// The number of rows written, or the refusal of the key list or of the text.
#[unsafe(no_mangle)]
pub extern "C" fn cidhomba_read_json(keys: &[u8], text: &[u8], rows: &mut [u16]) -> u64
    ensures answer { result ≡ json_code (json_map length (json_of keys.now text.now (length rows.old))) }
    ensures space { rows.new ≡ json_space (json_of keys.now text.now (length rows.old)) rows.old }
{
    text_code(jsonrows::read(keys, text, rows))
}

// The number of bytes written, or the refusal of the set, of the names, of the table or of the space.
#[unsafe(no_mangle)]
pub extern "C" fn cidhomba_write_term<'a>(
    set: &[u8],
    site: &'a [u8],
    built_in: &'a [u8],
    rows: &[u16],
    text: &mut [u8],
) -> u64
    ensures answer { result ≡ count_code (answer_map length (write_of set.now site.now built_in.now rows.now (length text.old))) }
    ensures space { text.new ≡ write_space (write_of set.now site.now built_in.now rows.now (length text.old)) text.old }
{
    code(spelling::write(set, site, built_in, rows, text))
}
