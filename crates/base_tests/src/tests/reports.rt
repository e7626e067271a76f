//! Reports that were read print their own texts, which no command shows: of the reports that commands print, and of texts that are
//! refused, there are rows.
use patch_report::laws::printed_again;
use std::test::Fail;

/// One `mov` at 0x401000, patched by a jump to 0x21000.
const WORKED: &str = "e9report 1\n\
    action cover\n\
    private 00020000 1\n\
    sites 1\n\
    site 00401000 0 B1\n\
    tramp 00021000 00401000 event\n\
    write 00401000 b83c000000 e9fbffc1ff\n\
    page 00021000 0\n\
    end\n";

/// A report with a line of each kind.
const RICH: &str = "e9report 1\n\
    action count\n\
    private 00020000 2\n\
    sites 4\n\
    site 00401020 3 T3\n\
    tramp 00030000 00401020 event\n\
    tramp 00030100 00401010 plain\n\
    write 00401010 4889d8 e9eb1e\n\
    write 00401020 89c3 eb10\n\
    pun 00401013 90\n\
    pun 00401022 c35b\n\
    pun 00401030 00112233445566778899aabbccddeeff\n\
    site 00401008 2 NotRelocatable\n\
    site 00401030 1 B1\n\
    tramp 7ffefffe ffffffff plain\n\
    write fffffff8 00112233445566778899aabbccddeeff ffeeddccbbaa99887766554433221100\n\
    write 00000000 00 01\n\
    write 00401030 b83c000000 e9fbffc1ff\n\
    site 00401000 0 NoPlan\n\
    page 00000000 4294967295\n\
    page 00030000 1\n\
    page 7ffef000 0\n\
    end\n";

/// A site that shares bytes, and numbers at the ends of their ranges.
const SHARED: &str = "e9report 2\n\
    origin 18446744073709551615 0 65535 ffffffffffffffff\n\
    action cover\n\
    private 00020000 1\n\
    sites 1\n\
    site 00401000 0 Shared\n\
    end\n";

/// The first one in version 2: what the original was stands in front of the action.
const WITH_ORIGIN: &str = "e9report 2\n\
    origin 4103 64 1 0000000000401000\n\
    action cover\n\
    private 00020000 1\n\
    sites 1\n\
    site 00401000 0 B1\n\
    tramp 00021000 00401000 event\n\
    write 00401000 b83c000000 e9fbffc1ff\n\
    page 00021000 0\n\
    end\n";

const EMPTY: &str = "e9report 1\naction cover\nprivate 7ffef000 1\nsites 0\nend\n";

const TEXTS: [&str; 5] = [WORKED, RICH, SHARED, WITH_ORIGIN, EMPTY];

#[test]
fn texts_come_back(rt: HostRuntime) -> Result<(), Fail> {
    for text in &TEXTS {
        let printed = printed_again(rt.alloc(), text.as_bytes())?;
        assert_eq!(rt; printed.as_slice(), text.as_bytes());
    }
    Ok(())
}
