//! How to read the pictures: what each kind of element means, beside one of the kind.

ghost use Rattle.std.specs.Prelude.{◌≡◌, ◌++◌, OnOk};
ghost use Rattle.tta_draw.specs.Legends.{machine_legend, code_legend, remark_legend};

use std::alloc::AllocError;

/// Puts the legend of a machine's picture.
#[tactic(auto, unfolding(crate::specs::Legends::machine_legend))]
pub fn push_machine_legend(out: &mut Vec<u8>) -> Result<(), AllocError>
    ensures { OnOk result (out.new.items ≡ out.old.items ++ machine_legend) }
{
    out.extend_from_slice(
        b"<rect class=\"bus\" x=\"8\" y=\"37\" width=\"44\" height=\"2\"/><text class=\"note\" x=\"64\" y=\"42\">A bus. Beside its name stands how many bits its short words have.</text>\n\
        <rect class=\"in\" x=\"8\" y=\"55\" width=\"44\" height=\"2\"/><circle class=\"in\" cx=\"30\" cy=\"56\" r=\"4\"/><text class=\"note\" x=\"64\" y=\"60\">A socket that leads words from buses into a port. A dot joins it to a bus; its name stands beside it.</text>\n\
        <rect class=\"out\" x=\"8\" y=\"73\" width=\"44\" height=\"2\"/><circle class=\"out\" cx=\"30\" cy=\"74\" r=\"4\"/><text class=\"note\" x=\"64\" y=\"78\">A socket that leads words from a port to buses.</text>\n\
        <rect class=\"takes\" x=\"8\" y=\"91\" width=\"44\" height=\"2\"/><circle class=\"takes\" cx=\"30\" cy=\"92\" r=\"4\"/><text class=\"note\" x=\"64\" y=\"96\">The buses that a template takes for a long word.</text>\n\
        <text class=\"port\" x=\"30\" y=\"114\">in out</text><text class=\"note\" x=\"64\" y=\"114\">The ports of registers, and the port of immediate registers.</text>\n\
        <text class=\"port\" x=\"30\" y=\"132\">o t r</text><text class=\"note\" x=\"64\" y=\"132\">The operand port of a unit, its trigger port, whose moves start operations, and its result port.</text>\n\
        <text class=\"port\" x=\"30\" y=\"150\">t ra</text><text class=\"note\" x=\"64\" y=\"150\">The trigger port of control, whose moves jump, call and halt, and the port of the return address.</text>\n\
        <text class=\"line\" x=\"12\" y=\"168\">add 1</text><text class=\"note\" x=\"64\" y=\"168\">An operation, and after how many cycles its result shows.</text>\n\
        ",
    )
}

/// Puts the legend of the picture of code.
#[tactic(auto, unfolding(crate::specs::Legends::code_legend))]
pub fn push_code_legend(out: &mut Vec<u8>) -> Result<(), AllocError>
    ensures { OnOk result (out.new.items ≡ out.old.items ++ code_legend) }
{
    out.extend_from_slice(
        b"<rect class=\"move\" x=\"8\" y=\"7\" width=\"112\" height=\"16\"/><text class=\"line\" x=\"12\" y=\"19\">!G.0 x -&gt; y</text><text class=\"note\" x=\"132\" y=\"19\">A move from x to y in the column of its bus. With !G.0 it acts if G.0 is 0, with ?G.0 if it is 1.</text>\n\
        <rect class=\"u0\" x=\"8\" y=\"25\" width=\"112\" height=\"16\"/><text class=\"line\" x=\"12\" y=\"37\">x -&gt; ALU.t.add</text><text class=\"note\" x=\"132\" y=\"37\">A move that starts an operation, in the colour of its unit.</text>\n\
        <rect class=\"b0\" x=\"62\" y=\"43\" width=\"4\" height=\"12\"/><circle class=\"b0\" cx=\"64\" cy=\"55\" r=\"4\"/><text class=\"note\" x=\"132\" y=\"55\">Its result on the way, in the column of the unit: it shows from the row of the dot on, if no jump comes between.</text>\n\
        <rect class=\"control\" x=\"8\" y=\"61\" width=\"112\" height=\"16\"/><text class=\"line\" x=\"12\" y=\"73\">x -&gt; gcu.t.jump</text><text class=\"note\" x=\"132\" y=\"73\">A jump, call or halt.</text>\n\
        <rect class=\"slot\" x=\"8\" y=\"79\" width=\"112\" height=\"16\"/><text class=\"note\" x=\"132\" y=\"91\">The delay slots after it, which are carried out before it takes effect.</text>\n\
        <rect class=\"arrow\" x=\"20\" y=\"104\" width=\"80\" height=\"2\"/><path class=\"arrow\" d=\"M108 105l-8-4v8z\"/><text class=\"note\" x=\"132\" y=\"109\">A jump or call takes effect: from its last delay slot to its target, a word or the last long immediate above.</text>\n\
        <rect class=\"taken\" x=\"8\" y=\"115\" width=\"54\" height=\"16\"/><rect class=\"long\" x=\"66\" y=\"115\" width=\"54\" height=\"16\"/><text class=\"line\" x=\"70\" y=\"127\">L=7</text><text class=\"note\" x=\"132\" y=\"127\">The buses that a long immediate takes, its template and its word.</text>\n\
        <text class=\"title\" x=\"12\" y=\"145\">L7</text><text class=\"note\" x=\"66\" y=\"145\">7</text><text class=\"note\" x=\"132\" y=\"145\">The label of a row, if it is the first or a target, and the address of the row.</text>\n\
        ",
    )
}

/// Puts what stands in it besides where there are remarks.
#[tactic(auto, unfolding(crate::specs::Legends::remark_legend))]
pub fn push_remark_legend(out: &mut Vec<u8>) -> Result<(), AllocError>
    ensures { OnOk result (out.new.items ≡ out.old.items ++ remark_legend) }
{
    out.extend_from_slice(
        b"<text class=\"remark\" x=\"12\" y=\"163\">b1 lines 3 5</text><text class=\"note\" x=\"132\" y=\"163\">The block of the program that begins in a row, and the lines that it stands for.</text>\n\
        ",
    )
}
