//! The machines of the tests.

/// A machine of one bus, which joins the output alone.
pub const ONE_BUS: &str = "bus B short 8 unsigned\n\
     socket I in B\n\
     unit OUT t I\n\
     op OUT out\n\
     control delay 0 address 8 t I\n";

/// A machine of three buses with two delay slots, whose products show after three cycles, and whose
/// input and output are one unit.
pub const THREE_BUSES: &str = "bus B0 short 8 signed\n\
     bus B1 short 8 signed\n\
     bus B2 short 8 signed\n\
     socket RI in B0 B1 B2\n\
     socket RO out B0 B1 B2\n\
     socket UI in B0 B1 B2\n\
     socket UO out B0 B1 B2\n\
     file R width 32 size 8 read 2 write 2 out RO in RI\n\
     file S width 32 size 8 read 1 write 1 out RO in RI\n\
     file G width 1 size 2 read 1 write 1 out RO in RI\n\
     imm I size 1 out RO\n\
     unit ALU o UI t UI r UO\n\
     op ALU add 1\n\
     op ALU sub 1\n\
     op ALU and 1\n\
     op ALU or 1\n\
     op ALU xor 1\n\
     op ALU not 1\n\
     op ALU shl 1\n\
     op ALU shr 1\n\
     op ALU shru 1\n\
     op ALU eq 1\n\
     op ALU lt 1\n\
     op ALU ltu 1\n\
     unit MUL o UI t UI r UO\n\
     op MUL mul 3\n\
     op MUL add 1\n\
     unit LSU o UI t UI r UO\n\
     op LSU ldw 2\n\
     op LSU stw\n\
     op LSU ldf 2\n\
     op LSU stf\n\
     unit IO t UI r UO\n\
     op IO out\n\
     op IO in 1\n\
     guard B0 G.0 plain\n\
     guard B0 G.0 inverted\n\
     guard B1 G.0 plain\n\
     guard B1 G.0 inverted\n\
     template L I.0 B1 B2\n\
     control delay 2 address 12 t UI ra UO\n\
     space data 1024\n\
     space frame 64\n";
