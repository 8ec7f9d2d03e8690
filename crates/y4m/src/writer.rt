//! Pictures as Y4M text.
ghost use Rattle.std.specs.Prelude.{◌≡◌, true, OnOk, OnErr};
ghost use Rattle.h263_outside.specs.Desk.{appended, GainsFront, Rose, OnlyWrites};
ghost use Rattle.h263_outside.specs.declared.desk.Role.TheVariants.{Pictures};
ghost use Rattle.h263_planes.specs.Lent.{picture as lent};
ghost use Rattle.y4m.specs.Text.{head_text, mark_text, frame_text};

use h263_outside::{Desk, Failed, Role, laws as outside_laws, write_all};
use h263_planes::PictureRef;
use h263_types::{Format, Mark};

fn head_line(format: Format) -> &'static [u8]
    ensures { result.now ≡ head_text format }
{
    match format {
        Format::SubQcif => b"YUV4MPEG2 W128 H96 F30000:1001 Ip C420jpeg\n",
        Format::Qcif => b"YUV4MPEG2 W176 H144 F30000:1001 Ip C420jpeg\n",
        Format::Cif => b"YUV4MPEG2 W352 H288 F30000:1001 Ip C420jpeg\n",
    }
}

fn mark_line(mark: Mark) -> &'static [u8]
    ensures { result.now ≡ mark_text mark }
{
    match mark {
        Mark::Exact => b"FRAME XEXACT\n",
        Mark::Patched => b"FRAME XPATCHED\n",
        Mark::Held => b"FRAME XHELD\n",
    }
}

/// Writes the line that pictures of a format begin with. After `Failed` some prefix of it was
/// written.
pub fn write_head<D: Desk>(desk: &mut D, format: Format) -> Result<(), Failed>
    requires { (D.outside desk.old).attached Pictures ≡ true }
    ensures text { OnOk result ((D.outside desk.new).written
        ≡ appended (D.outside desk.old).written Pictures (head_text format)) }
    ensures prefix { OnErr result (GainsFront Pictures
        (head_text format) (D.outside desk.old).written (D.outside desk.new).written) }
    ensures cause { OnErr result
        (Rose (D.outside desk.old).faults.write (D.outside desk.new).faults.write) }
    ensures ok_faults { OnOk result
        ((D.outside desk.new).faults ≡ (D.outside desk.old).faults) }
    ensures rest { OnlyWrites (D.outside desk.old) (D.outside desk.new) }
{
    write_all(desk, Role::Pictures, head_line(format))
}

/// Writes a picture with the line of its mark. After `Failed` some prefix of both was written.
pub fn write_frame<D: Desk>(desk: &mut D, mark: Mark, picture: PictureRef<'_>) -> Result<(), Failed>
    requires { (D.outside desk.old).attached Pictures ≡ true }
    ensures text { OnOk result ((D.outside desk.new).written
        ≡ appended (D.outside desk.old).written Pictures (frame_text mark (lent picture.entry))) }
    ensures prefix { OnErr result (GainsFront Pictures (frame_text mark (lent picture.entry))
        (D.outside desk.old).written (D.outside desk.new).written) }
    ensures cause { OnErr result
        (Rose (D.outside desk.old).faults.write (D.outside desk.new).faults.write) }
    ensures rest { OnlyWrites (D.outside desk.old) (D.outside desk.new) }
{
    outside_laws::calls();
    outside_laws::fronts_of_two();
    write_all(desk, Role::Pictures, mark_line(mark))?;
    write_all(desk, Role::Pictures, picture.bytes())
}
