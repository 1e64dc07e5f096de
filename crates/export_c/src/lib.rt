// The calls for C: the functions of crate `export`, under their names and with their clauses. include/cabbagelute.h says every promise in words.
// Kept: each call repeats the arguments and clauses of its export, as the C interface needs.
#![tactic(auto)]

ghost use Rattle.std.specs.Prelude.{◌≡◌};
ghost use Rattle.rules.specs.Versions.{compare_versions, order_number, meets, met_number};
ghost use Rattle.export.specs.Calls.{ExportsIn, Exports};
ghost use Rattle.export.specs.Packages.{ExportsPackages};

#[unsafe(no_mangle)]
pub extern "C" fn cabbagelute_read_in(
    text: &[u8],
    workspace: &mut [u32],
    pool: &mut [u8],
    output: &mut [u8],
    detail: &mut [u8],
) -> u32
    ensures { ExportsIn text.now workspace.old pool.old output.old detail.old
        workspace.new pool.new output.new detail.new result }
{
    export::cabbagelute_read_in(text, workspace, pool, output, detail)
}

#[unsafe(no_mangle)]
pub extern "C" fn cabbagelute_read(
    text: &[u8],
    pool: &mut [u8],
    output: &mut [u8],
    detail: &mut [u8],
) -> u32
    ensures { Exports text.now pool.old output.old detail.old pool.new output.new detail.new result }
{
    export::cabbagelute_read(text, pool, output, detail)
}

#[unsafe(no_mangle)]
pub extern "C" fn cabbagelute_packages(records: &[u8], output: &mut [u8], detail: &mut [u8]) -> u32
    ensures { ExportsPackages records.now output.old detail.old output.new detail.new result }
{
    export::items::cabbagelute_packages(records, output, detail)
}

#[unsafe(no_mangle)]
pub extern "C" fn cabbagelute_compare_versions(a: &[u8], b: &[u8]) -> u32
    ensures { result ≡ order_number (compare_versions a.now b.now) }
{
    export::version_calls::cabbagelute_compare_versions(a, b)
}

#[unsafe(no_mangle)]
pub extern "C" fn cabbagelute_version_meets(version: &[u8], operator: u32, asked: &[u8]) -> u32
    ensures { result ≡ met_number (meets version.now operator asked.now) }
{
    export::version_calls::cabbagelute_version_meets(version, operator, asked)
}
