// The fader's curve, computed from its rule, on standard output; `help` says how it is used.
#![tactic(auto)]

ghost use Rattle.std.specs.Prelude.{◌≡◌};
ghost use Rattle.fader_curve.specs.CurveText.{curve_text};

use fader_curve::curve_text;
use host_io::host::arg_count;
use host_io::remembering::Remembering;
use host_io::write_all;
use std::io::Write;

fn help<E: Write>(err: &mut E) {
    write_all(
        err,
        b"curve    the fader's 1,024 entries, computed from their rule, on standard output

Entry k is 32,768 k^2 / 1,046,529, rounded down. Eight to a line, right-justified in 6 columns.
",
    );
}

// What is handed to the system is the curve.
fn write_curve<W: Write>(to: &mut W, text: &[u8]) -> bool
    requires { text.now ≡ curve_text }
{
    write_all(to, text)
}

fn main(rt: HostRuntime) {
    let mut err = rt.stderr();
    if arg_count(&rt, 2) != 1 {
        help(&mut err);
        return;
    }
    let text = curve_text();
    let mut out = Remembering::new(rt.stdout());
    if !write_curve(&mut out, &text) {
        out.tell(&mut err, b"standard output");
    }
}
