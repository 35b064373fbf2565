//! The target as GDB has it described ("Target Descriptions", "RISC-V Features"; "Memory Map Format").

ghost use Rattle.std.specs.Prelude.{◌≡◌, string_bytes, IfOk};
ghost use Rattle.debug_session.specs.Replies.{memory_map_text};

use board_model::Shape;
use std::alloc::{AllocError, Global};

/// The registers, as an object of `qXfer:features:read`: 32 of their own, the pc, and nine control and status
/// registers.
pub const DESCRIPTION: &str = "\
<?xml version=\"1.0\"?>\n\
<!DOCTYPE target SYSTEM \"gdb-target.dtd\">\n\
<target version=\"1.0\">\n\
<architecture>riscv:rv64</architecture>\n\
<osabi>none</osabi>\n\
<feature name=\"org.gnu.gdb.riscv.cpu\">\n\
<reg name=\"zero\" bitsize=\"64\" regnum=\"0\" type=\"int\"/>\n\
<reg name=\"ra\" bitsize=\"64\" regnum=\"1\" type=\"code_ptr\"/>\n\
<reg name=\"sp\" bitsize=\"64\" regnum=\"2\" type=\"data_ptr\"/>\n\
<reg name=\"gp\" bitsize=\"64\" regnum=\"3\" type=\"data_ptr\"/>\n\
<reg name=\"tp\" bitsize=\"64\" regnum=\"4\" type=\"data_ptr\"/>\n\
<reg name=\"t0\" bitsize=\"64\" regnum=\"5\" type=\"int\"/>\n\
<reg name=\"t1\" bitsize=\"64\" regnum=\"6\" type=\"int\"/>\n\
<reg name=\"t2\" bitsize=\"64\" regnum=\"7\" type=\"int\"/>\n\
<reg name=\"fp\" bitsize=\"64\" regnum=\"8\" type=\"data_ptr\"/>\n\
<reg name=\"s1\" bitsize=\"64\" regnum=\"9\" type=\"int\"/>\n\
<reg name=\"a0\" bitsize=\"64\" regnum=\"10\" type=\"int\"/>\n\
<reg name=\"a1\" bitsize=\"64\" regnum=\"11\" type=\"int\"/>\n\
<reg name=\"a2\" bitsize=\"64\" regnum=\"12\" type=\"int\"/>\n\
<reg name=\"a3\" bitsize=\"64\" regnum=\"13\" type=\"int\"/>\n\
<reg name=\"a4\" bitsize=\"64\" regnum=\"14\" type=\"int\"/>\n\
<reg name=\"a5\" bitsize=\"64\" regnum=\"15\" type=\"int\"/>\n\
<reg name=\"a6\" bitsize=\"64\" regnum=\"16\" type=\"int\"/>\n\
<reg name=\"a7\" bitsize=\"64\" regnum=\"17\" type=\"int\"/>\n\
<reg name=\"s2\" bitsize=\"64\" regnum=\"18\" type=\"int\"/>\n\
<reg name=\"s3\" bitsize=\"64\" regnum=\"19\" type=\"int\"/>\n\
<reg name=\"s4\" bitsize=\"64\" regnum=\"20\" type=\"int\"/>\n\
<reg name=\"s5\" bitsize=\"64\" regnum=\"21\" type=\"int\"/>\n\
<reg name=\"s6\" bitsize=\"64\" regnum=\"22\" type=\"int\"/>\n\
<reg name=\"s7\" bitsize=\"64\" regnum=\"23\" type=\"int\"/>\n\
<reg name=\"s8\" bitsize=\"64\" regnum=\"24\" type=\"int\"/>\n\
<reg name=\"s9\" bitsize=\"64\" regnum=\"25\" type=\"int\"/>\n\
<reg name=\"s10\" bitsize=\"64\" regnum=\"26\" type=\"int\"/>\n\
<reg name=\"s11\" bitsize=\"64\" regnum=\"27\" type=\"int\"/>\n\
<reg name=\"t3\" bitsize=\"64\" regnum=\"28\" type=\"int\"/>\n\
<reg name=\"t4\" bitsize=\"64\" regnum=\"29\" type=\"int\"/>\n\
<reg name=\"t5\" bitsize=\"64\" regnum=\"30\" type=\"int\"/>\n\
<reg name=\"t6\" bitsize=\"64\" regnum=\"31\" type=\"int\"/>\n\
<reg name=\"pc\" bitsize=\"64\" regnum=\"32\" type=\"code_ptr\"/>\n\
</feature>\n\
<feature name=\"org.gnu.gdb.riscv.csr\">\n\
<reg name=\"sstatus\" bitsize=\"64\" regnum=\"33\" type=\"int\"/>\n\
<reg name=\"sie\" bitsize=\"64\" regnum=\"34\" type=\"int\"/>\n\
<reg name=\"stvec\" bitsize=\"64\" regnum=\"35\" type=\"int\"/>\n\
<reg name=\"sscratch\" bitsize=\"64\" regnum=\"36\" type=\"int\"/>\n\
<reg name=\"sepc\" bitsize=\"64\" regnum=\"37\" type=\"int\"/>\n\
<reg name=\"scause\" bitsize=\"64\" regnum=\"38\" type=\"int\"/>\n\
<reg name=\"stval\" bitsize=\"64\" regnum=\"39\" type=\"int\"/>\n\
<reg name=\"sip\" bitsize=\"64\" regnum=\"40\" type=\"int\"/>\n\
<reg name=\"satp\" bitsize=\"64\" regnum=\"41\" type=\"int\"/>\n\
</feature>\n\
</target>\n";

/// The memory, as an object of `qXfer:memory-map:read`: the RAM.
pub fn memory_map(alloc: Global, shape: &Shape) -> Result<String, AllocError>
    ensures { IfOk result (λ text. string_bytes text ≡ memory_map_text shape.now) }
{
    let length = shape.ram_bytes();
    format!(in alloc;
        "<?xml version=\"1.0\"?>\n\
        <!DOCTYPE memory-map PUBLIC \"+//IDN gnu.org//DTD GDB Memory Map V1.0//EN\" \
        \"http://sourceware.org/gdb/gdb-memory-map.dtd\">\n\
        <memory-map><memory type=\"ram\" start=\"0x80000000\" length=\"{length}\"/></memory-map>\n"
    )
}
