// What lies where in the workspace.
ghost use Rattle.std.specs.Prelude.{◌+◌, ◌*◌, ◌≤◌};

// The map for a text of n bytes, with `count` tokens and v variables.
#[derive(Clone, Copy)]
pub struct Layout {
    pub n: usize,
    pub count: usize,
    pub v: usize,
    ghost small: { n ≤ 65535 },
    ghost tokens: { count ≤ n },
    ghost few: { 3 * v ≤ count + 1 },
}
