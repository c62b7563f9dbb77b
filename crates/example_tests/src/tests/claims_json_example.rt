use claims_json::claims_lines;
use properties::{PropertyVerdict, PulseClaims};
use property_text::read_properties;
use rule_syntax::Sizes;
use std::test::Fail;

#[test]
fn claims_json_example(rt: HostRuntime) -> Result<(), Fail> {
    let words = [String::from_str(rt.alloc(), "clock")?];
    let sizes = Sizes {
        nodes: 4,
        faults: 1,
        modulus: 8,
        memory: 4,
    };
    let text = b"always p.clock == q.clock\n";
    let properties = read_properties(rt.alloc(), &words, sizes, text).map_err(|_| "no properties")?;

    let mut verdicts = Vec::new(rt.alloc());
    verdicts.push(PropertyVerdict::Violated {
        first: 0,
        second: 2,
    })?;
    let pulses = [PulseClaims { pulse: 3, verdicts }];
    let text = claims_lines(rt.alloc(), &properties, &pulses)?;
    let lines = text.as_str();
    assert!(rt; lines.starts_with("{\"claims\":[\"no\"],\"pulse\":3}\n"));
    assert!(rt; lines.ends_with("\"line\":1,\"nodes\":[0,2],\"violated\":1}\n"));
    Ok(())
}
