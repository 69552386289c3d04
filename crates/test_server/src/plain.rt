use kd_plain::{include_in, plain_text};
use std::alloc::{AllocError, Global};
use std::test::Fail;

// Reports whether a text has this plain text.
fn has_plain(alloc: Global, text: &[u8], plain: &[u8]) -> Result<bool, AllocError> {
    match plain_text(alloc, text)? {
        Some(bytes) => Ok(bytes.as_slice() == plain),
        None => Ok(false),
    }
}

#[test]
fn texts_have_their_plain_texts(rt: HostRuntime) -> Result<(), Fail> {
    let rows: [(&[u8], &[u8]); 22] = [
        (b"", b""),
        (b"{}", b"{}"),
        (b"// a", b"    "),
        (b"1 //", b"1   "),
        (b"# a\n{}", b"   \n{}"),
        (b"//\r\n1", b"   \n1"),
        (b"/**/", b"    "),
        (b"/*/*/", b"     "),
        (b"/*//*/1", b"      1"),
        (b"//*\n*/", b"   \n*/"),
        (b"/*\n*/1", b"  \n  1"),
        (b"/", b"/"),
        (b"a/b*/", b"a/b*/"),
        (b"/* \" */\"*/\"", b"       \"*/\""),
        (b"# \" \n#\"", b"    \n  "),
        (b"\"//\" \"#\" \"/* */\"", b"\"//\" \"#\" \"/* */\""),
        (b"\"\\\"//\"", b"\"\\\"//\""),
        (b"\"\\\\\"//", b"\"\\\\\"  "),
        (b"\"ab //", b"\"ab //"),
        (b"\"\\", b"\"\\"),
        (b"\"a\n#\" #", b"\"a\n#\"  "),
        (b"\xc3\xa9#\xc3\xa9", b"\xc3\xa9   "),
    ];
    for (text, plain) in &rows {
        assert!(rt; has_plain(rt.alloc(), text, plain)?, "{text:?}");
    }
    Ok(())
}

#[test]
fn last_commas_are_spaces(rt: HostRuntime) -> Result<(), Fail> {
    let rows: [(&[u8], &[u8]); 14] = [
        (b"[1,2]", b"[1,2]"),
        (b"[1,]", b"[1 ]"),
        (b"{\"a\":1,}", b"{\"a\":1 }"),
        (b"[1,/* x */ ]", b"[1         ]"),
        (b"[1, // x\n]", b"[1      \n]"),
        (b"[1,#]\n]", b"[1   \n]"),
        (b"[1,\t\r\n}", b"[1 \t\r\n}"),
        (b"[1,,]", b"[1, ]"),
        (b"[,]", b"[ ]"),
        (b"[[1,],[2,],]", b"[[1 ],[2 ] ]"),
        (b"\",]\"", b"\",]\""),
        (b"[\",]\",]", b"[\",]\" ]"),
        (b"[1,", b"[1,"),
        (b",/", b",/"),
    ];
    for (text, plain) in &rows {
        assert!(rt; has_plain(rt.alloc(), text, plain)?, "{text:?}");
    }
    Ok(())
}

#[test]
fn points_that_begin_numbers_get_a_zero(rt: HostRuntime) -> Result<(), Fail> {
    let rows: [(&[u8], &[u8]); 15] = [
        (b"{\"a\": .5}", b"{\"a\":0.5}"),
        (b"[.5]", b"[.5]"),
        (b"[1, .5, .25,]", b"[1,0.5,0.25 ]"),
        (b":\t.5", b":0.5"),
        (b":\r.5", b":0.5"),
        (b":\n.5", b":\n.5"),
        (b":\n .5", b":\n0.5"),
        (b"1 .5", b"1 .5"),
        (b"1  .5", b"1 0.5"),
        (b"- .5", b"- .5"),
        (b"/* */ .5", b"     0.5"),
        (b"/* */.5", b"     .5"),
        (b"\" .5\"", b"\" .5\""),
        (b"// .5", b"     "),
        (b" .", b"0."),
    ];
    for (text, plain) in &rows {
        assert!(rt; has_plain(rt.alloc(), text, plain)?, "{text:?}");
    }
    Ok(())
}

#[test]
fn block_comments_must_end(rt: HostRuntime) -> Result<(), Fail> {
    let rows: [&[u8]; 4] = [b"/*", b"/*/", b"{} /* a *", b"/**/ /* // */\n/* \"*\""];
    for text in &rows {
        assert!(rt; plain_text(rt.alloc(), text)?.is_none(), "{text:?}");
    }
    Ok(())
}

#[test]
fn includes_are_found(rt: HostRuntime) {
    let rows: [(&[u8], Option<&[u8]>); 11] = [
        (b"", None),
        (b"{}", None),
        (b"<?xml?> <? <", None),
        (b"// <?include \"a\"?>", None),
        (b"\"<?include\"", None),
        (b"/* <?include \"a\"?>", None),
        (b"<?include \"a\"?>", Some(b"<?include \"a\"?>")),
        (
            b"/* <?include */ <?include \"b\" ?> x",
            Some(b"<?include \"b\" ?>"),
        ),
        (b"{<?include \"c\" // ?\n?>", Some(b"<?include \"c\" // ?")),
        (b"<? \t\n include", Some(b"<? \t")),
        (b"<<??include <?include\"d\"?>?>", Some(b"<?include\"d\"?>")),
    ];
    for (text, found) in &rows {
        assert!(rt; include_in(text) == *found, "{text:?}");
    }
}
