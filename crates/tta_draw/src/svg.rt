//! The elements that a picture is made of, put at the end of its text.

ghost use Rattle.std.specs.Prelude.{◌≡◌, ◌++◌, decimal, OnOk};
ghost use Rattle.tta_draw.specs.Svg.{attribute, size_text, frame_text, box_text, centre_text};
ghost use Rattle.tta_draw.specs.Svg.{circle_text, dot_text, pair_text, tip_text, measures_text};
ghost use Rattle.tta_draw.specs.Svg.{spot_text, label_start, label_end, label_text, count_text};
ghost use Rattle.tta_draw.specs.Svg.{view_text, style_text, head_text, tail_text};

use crate::frame::{Frame, Spot};
use itoa::Buffer;
use std::alloc::AllocError;

/// Puts a number, in decimal.
pub fn push_number(out: &mut Vec<u8>, n: u64) -> Result<(), AllocError>
    ensures { OnOk result (out.new.items ≡ out.old.items ++ decimal n) }
{
    let mut buffer = Buffer::new();
    out.extend_from_slice(buffer.format(n).as_bytes())
}

/// Puts an attribute, whose name has the marks around it.
#[tactic(auto, unfolding(crate::specs::Svg::attribute))]
fn push_attribute(out: &mut Vec<u8>, name: &[u8], n: u64) -> Result<(), AllocError>
    ensures { OnOk result (out.new.items ≡ out.old.items ++ attribute name.now n) }
{
    out.extend_from_slice(name)?;
    push_number(out, n)?;
    out.extend_from_slice(b"\"")
}

/// Puts the attributes of a size.
#[tactic(auto, unfolding(crate::specs::Svg::size_text))]
fn push_size(out: &mut Vec<u8>, width: u64, height: u64) -> Result<(), AllocError>
    ensures { OnOk result (out.new.items ≡ out.old.items ++ size_text width height) }
{
    push_attribute(out, b" width=\"", width)?;
    push_attribute(out, b" height=\"", height)
}

/// Puts the attributes of a frame.
#[tactic(auto, unfolding(crate::specs::Svg::frame_text))]
fn push_frame(out: &mut Vec<u8>, f: Frame) -> Result<(), AllocError>
    ensures { OnOk result (out.new.items ≡ out.old.items ++ frame_text f) }
{
    push_attribute(out, b" x=\"", f.x)?;
    push_attribute(out, b" y=\"", f.y)?;
    push_size(out, f.width, f.height)
}

/// Puts a filled box of a class.
#[tactic(auto, unfolding(crate::specs::Svg::box_text))]
pub fn push_box(out: &mut Vec<u8>, class: &[u8], f: Frame) -> Result<(), AllocError>
    ensures { OnOk result (out.new.items ≡ out.old.items ++ box_text class.now f) }
{
    out.extend_from_slice(b"<rect class=\"")?;
    out.extend_from_slice(class)?;
    out.extend_from_slice(b"\"")?;
    push_frame(out, f)?;
    out.extend_from_slice(b"/>\n")
}

/// Puts the attributes of a centre.
#[tactic(auto, unfolding(crate::specs::Svg::centre_text))]
fn push_centre(out: &mut Vec<u8>, x: u64, y: u64) -> Result<(), AllocError>
    ensures { OnOk result (out.new.items ≡ out.old.items ++ centre_text x y) }
{
    push_attribute(out, b" cx=\"", x)?;
    push_attribute(out, b" cy=\"", y)
}

/// Puts a text.
fn push_text(out: &mut Vec<u8>, text: &[u8]) -> Result<(), AllocError>
    ensures { OnOk result (out.new.items ≡ out.old.items ++ text.now) }
{
    out.extend_from_slice(text)
}

/// Puts how a dot of a class begins.
#[tactic(auto, unfolding(crate::specs::Svg::circle_text))]
fn start_dot(out: &mut Vec<u8>, class: &[u8]) -> Result<(), AllocError>
    ensures { OnOk result (out.new.items ≡ out.old.items ++ circle_text class.now) }
{
    push_text(out, b"<circle class=\"")?;
    push_text(out, class)?;
    push_text(out, b"\"")
}

/// Puts a dot of a class, by its centre.
#[tactic(auto, unfolding(crate::specs::Svg::dot_text))]
pub fn push_dot(out: &mut Vec<u8>, class: &[u8], x: u64, y: u64) -> Result<(), AllocError>
    ensures { OnOk result (out.new.items ≡ out.old.items ++ dot_text class.now x y) }
{
    start_dot(out, class)?;
    push_centre(out, x, y)?;
    out.extend_from_slice(b" r=\"4\"/>\n")
}

/// Puts the attributes of a spot.
#[tactic(auto, unfolding(crate::specs::Svg::spot_text))]
fn push_spot(out: &mut Vec<u8>, p: Spot) -> Result<(), AllocError>
    ensures { OnOk result (out.new.items ≡ out.old.items ++ spot_text p) }
{
    push_attribute(out, b" x=\"", p.x)?;
    push_attribute(out, b" y=\"", p.y)
}

/// Puts what stands before the text of a label.
#[tactic(auto, unfolding(crate::specs::Svg::label_start))]
pub fn start_label(out: &mut Vec<u8>, class: &[u8], p: Spot) -> Result<(), AllocError>
    ensures { OnOk result (out.new.items ≡ out.old.items ++ label_start class.now p) }
{
    out.extend_from_slice(b"<text class=\"")?;
    out.extend_from_slice(class)?;
    out.extend_from_slice(b"\"")?;
    push_spot(out, p)?;
    out.extend_from_slice(b">")
}

/// Puts what stands after it.
pub fn end_label(out: &mut Vec<u8>) -> Result<(), AllocError>
    ensures { OnOk result (out.new.items ≡ out.old.items ++ label_end) }
{
    out.extend_from_slice(b"</text>\n")
}

/// Puts a label of a class: a text that begins at a spot. Nothing cuts it off.
pub fn push_label(out: &mut Vec<u8>, class: &[u8], p: Spot, text: &[u8]) -> Result<(), AllocError>
    ensures { OnOk result (out.new.items ≡ out.old.items ++ label_text class.now p text.now) }
{
    start_label(out, class, p)?;
    out.extend_from_slice(text)?;
    end_label(out)
}

/// Puts a label of a name and a number.
pub fn push_count(
    out: &mut Vec<u8>,
    class: &[u8],
    p: Spot,
    name: &[u8],
    n: u64,
) -> Result<(), AllocError>
    ensures { OnOk result (out.new.items ≡ out.old.items ++ count_text class.now p name.now n) }
{
    start_label(out, class, p)?;
    out.extend_from_slice(name)?;
    push_number(out, n)?;
    end_label(out)
}

/// Puts two numbers with a blank between.
#[tactic(auto, unfolding(crate::specs::Svg::pair_text))]
fn push_pair(out: &mut Vec<u8>, first: u64, second: u64) -> Result<(), AllocError>
    ensures { OnOk result (out.new.items ≡ out.old.items ++ pair_text first second) }
{
    push_number(out, first)?;
    out.extend_from_slice(b" ")?;
    push_number(out, second)
}

/// Puts the tip of an arrow of a class, which points to the right, by its point.
#[tactic(auto, unfolding(crate::specs::Svg::tip_text))]
pub fn push_tip(out: &mut Vec<u8>, class: &[u8], x: u64, y: u64) -> Result<(), AllocError>
    ensures { OnOk result (out.new.items ≡ out.old.items ++ tip_text class.now x y) }
{
    out.extend_from_slice(b"<path class=\"")?;
    out.extend_from_slice(class)?;
    out.extend_from_slice(b"\" d=\"M")?;
    push_pair(out, x, y)?;
    out.extend_from_slice(b"l-8-4v8z\"/>\n")
}

/// Puts that the measures of a picture of some size are its own.
#[tactic(auto, unfolding(crate::specs::Svg::measures_text))]
fn push_measures(out: &mut Vec<u8>, width: u64, height: u64) -> Result<(), AllocError>
    ensures { OnOk result (out.new.items ≡ out.old.items ++ measures_text width height) }
{
    push_text(out, b" viewBox=\"0 0 ")?;
    push_pair(out, width, height)?;
    push_text(out, b"\"")
}

/// Puts the attributes of a picture's size.
#[tactic(auto, unfolding(crate::specs::Svg::view_text))]
fn push_view(out: &mut Vec<u8>, width: u64, height: u64) -> Result<(), AllocError>
    ensures { OnOk result (out.new.items ≡ out.old.items ++ view_text width height) }
{
    push_size(out, width, height)?;
    push_measures(out, width, height)
}

/// Puts the look of each class.
#[tactic(auto, unfolding(crate::specs::Svg::style_text))]
fn push_style(out: &mut Vec<u8>) -> Result<(), AllocError>
    ensures { OnOk result (out.new.items ≡ out.old.items ++ style_text) }
{
    out.extend_from_slice(
        b"<style>\n\
        .ground{fill:#fff}text{font:11px monospace;fill:#1f2933}.title{font-weight:bold}.note{fill:#616e7c}.port{fill:#616e7c;text-anchor:middle}.remark{fill:#2c5282}\n\
        .bus{fill:#3e4c59}.part{fill:#f5f7fa;stroke:#9aa5b1}.in{fill:#2b6cb0}.out{fill:#c05621}.takes{fill:#7b8794}\n\
        .row{fill:#000;opacity:.1}.slot{fill:#fff0ed}.move{fill:#edf1f5}.control{fill:#fbc4bb}.taken{fill:#d9dfe6}.long{fill:#d9dfe6}.arrow{fill:#7b8794}\n\
        .u0{fill:#dbeafe}.u1{fill:#fef3c7}.u2{fill:#d1fae5}.u3{fill:#fce7f3}.u4{fill:#e9d8fd}.u5{fill:#ffe4cc}\n\
        .b0{fill:#3b82f6}.b1{fill:#d69e2e}.b2{fill:#38a169}.b3{fill:#d53f8c}.b4{fill:#805ad5}.b5{fill:#dd6b20}</style>\n\
        ",
    )
}

/// Puts how a picture of some size begins.
#[tactic(auto, unfolding(crate::specs::Svg::head_text))]
pub fn push_head(out: &mut Vec<u8>, width: u64, height: u64) -> Result<(), AllocError>
    ensures { OnOk result (out.new.items ≡ out.old.items ++ head_text width height) }
{
    push_text(out, b"<svg xmlns=\"http://www.w3.org/2000/svg\"")?;
    push_view(out, width, height)?;
    push_text(out, b">\n")?;
    push_style(out)?;
    let ground = Frame {
        x: 0,
        y: 0,
        width,
        height,
    };
    push_box(out, b"ground", ground)
}

/// Puts how it ends.
pub fn push_tail(out: &mut Vec<u8>) -> Result<(), AllocError>
    ensures { OnOk result (out.new.items ≡ out.old.items ++ tail_text) }
{
    out.extend_from_slice(b"</svg>\n")
}
