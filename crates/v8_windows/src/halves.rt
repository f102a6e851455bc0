//! Half windows: eight registers, as outs, locals or ins.
ghost use Rattle.std.specs.Prelude.{◌≡◌, ◌≤◌, ◌++◌};
ghost use Rattle.v8_windows.specs.Halves.{eight};

/// The registers of a window from number `at` on.
pub(crate) fn half(flat: &[u32; 32], at: usize) -> [u32; 8]
    requires { at ≤ 24 }
    ensures { result ≡ eight at flat.now }
{
    [
        flat[at],
        flat[at + 1],
        flat[at + 2],
        flat[at + 3],
        flat[at + 4],
        flat[at + 5],
        flat[at + 6],
        flat[at + 7],
    ]
}

/// The registers of a window, from its globals, outs, locals and ins.
pub(crate) fn whole(
    globals: &[u32; 8],
    outs: &[u32; 8],
    locals: &[u32; 8],
    ins: &[u32; 8],
) -> [u32; 32]
    ensures { result ≡ globals.now ++ (outs.now ++ (locals.now ++ ins.now)) }
{
    [
        globals[0], globals[1], globals[2], globals[3], globals[4], globals[5], globals[6],
        globals[7], outs[0], outs[1], outs[2], outs[3], outs[4], outs[5], outs[6], outs[7],
        locals[0], locals[1], locals[2], locals[3], locals[4], locals[5], locals[6], locals[7],
        ins[0], ins[1], ins[2], ins[3], ins[4], ins[5], ins[6], ins[7],
    ]
}
