use property_text::read_properties;
use rule_syntax::Sizes;
use std::test::Fail;

#[test]
fn property_text_example(rt: HostRuntime) -> Result<(), Fail> {
    let words = [String::from_str(rt.alloc(), "clock")?];
    let sizes = Sizes {
        nodes: 4,
        faults: 1,
        modulus: 8,
        memory: 4,
    };
    let text = b"assume n > 3 * f\nalways p.clock == q.clock\n";
    let properties = read_properties(rt.alloc(), &words, sizes, text).map_err(|_| "no properties")?;
    assert_eq!(rt; properties.len(), 1);
    Ok(())
}
