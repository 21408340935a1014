//! `ID` (section 3.5.5 of the Specification): its text, its copies, and its JSON.

use juniper_conversions::ID;
use std::test::Fail;

#[test]
fn ids_show_their_text(rt: HostRuntime) -> Result<(), Fail> {
    let alloc = rt.alloc();
    let luke = ID::new(String::from_str(alloc, "1000")?);
    assert_eq!(rt; luke.as_str(), "1000");
    assert_eq!(rt;
        format!(in alloc; "{luke}|{luke:>6}")?.as_str(),
        "1000|  1000"
    );
    let again = ID::from(String::from_str(alloc, "1000")?);
    let vader = ID::from(String::from_str(alloc, "1001")?);
    assert!(rt; luke == again);
    assert!(rt; luke != vader);
    assert!(rt; vader.try_clone(alloc)? == vader);
    let text: String = vader.into();
    assert_eq!(rt; text.as_str(), "1001");
    Ok(())
}

#[test]
fn ids_are_plain_texts_in_json(rt: HostRuntime) -> Result<(), Fail> {
    let alloc = rt.alloc();
    let id = ID::new(String::from_str(alloc, "a\"b")?);
    match serde_json::to_string(alloc, &id) {
        Ok(line) => assert_eq!(rt; line.as_str(), "\"a\\\"b\""),
        Err(_) => assert!(rt; false, "it is not written"),
    }
    match serde_json::from_str::<ID>(alloc, "\"a\\\"b\"") {
        Ok(read) => assert!(rt; read == id),
        Err(_) => assert!(rt; false, "it is not read"),
    }
    assert!(rt; serde_json::from_str::<ID>(alloc, "7").is_err());
    assert!(rt; serde_json::from_str::<ID>(alloc, "[\"a\"]").is_err());
    Ok(())
}
