// What the text's end prints.
ghost use Rattle.std.specs.Prelude.{◌≡◌, cond, List, [], ℕ, ◌+◌, ◌*◌, ◌≤◌, eqb, length};
ghost use Rattle.table.specs.Table.{of_slices, Degrees};
ghost use Rattle.table.specs.Slices.{slices_of};
ghost use Rattle.fleet_state.specs.Within.{LegalWithoutCosts};
ghost use Rattle.script_lines.specs.Fitting.{capped, stored_within};
ghost use Rattle.script_theory.specs.Script.{end_text};

// The length of what the text's end prints.
pub fn end_length(held: u32) -> usize
    ensures { result ≡ cond (eqb held 0) 11 16 }
{
    if held == 0 {
        return 11;
    }
    16
}

// What the text's end prints, from an offset on, where it fits. Answers where it ends. The table's number and costs do not bear on it.
pub fn put_end(
    probes: usize,
    links: usize,
    needs: &[u16],
    degrees: &[u16],
    lows: &[u16],
    highs: &[u16],
    rec: &[u8],
    held: u32,
    changed: u32,
    out: &mut [u8],
    at: usize,
) -> usize
    requires { LegalWithoutCosts probes links needs.now lows.now highs.now × (8 * links ≤ length rec.now)
        × (probes ≤ length degrees.now) × Degrees (of_slices 0 probes links needs.now lows.now highs.now []) degrees.now × (at ≤ 9223372036854775808) }
    ensures { ((number : ℕ) (costs : List ℕ) → (out.new ≡ stored_within out.old at
        (end_text (slices_of number probes links needs.now lows.now highs.now costs) rec.now held changed)))
        × (result ≡ capped (at + cond (eqb held 0) 11 16)) }
{
    let end = at + end_length(held);
    if out.len() < end {
        return script_lines::answers::cap(end);
    }
    let next = script_lines::answers::put_unclosed(out, at, held);
    let done = fleet_finishing::finishing::is_finished(
        probes, links, needs, degrees, lows, highs, rec,
    );
    script_lines::answers::put_last(out, next, done, changed);
    end
}
