//! A region from its start to a result that shows.

use std::test::Fail;
use tta_flight::Region;

#[test]
fn a_result_shows_when_it_is_due(rt: HostRuntime) -> Result<(), Fail> {
    let mut region = Region::new(rt.alloc(), &[2, 0, 16])?;
    assert_eq!(rt; region.port(0), None);
    assert_eq!(rt; region.due(2, 16), None);
    assert!(rt; !region.clash(0, 2));
    region.start(0, 2, 7);
    assert_eq!(rt; region.due(0, 2), Some(7));
    region.advance();
    assert_eq!(rt; region.port(0), None);
    region.advance_units(0, 1);
    assert_eq!(rt; region.port(0), Some(7));
    region.advance();
    assert_eq!(rt; region.port(0), Some(7));
    Ok(())
}

#[test]
fn a_result_that_is_due_at_once_shows(rt: HostRuntime) -> Result<(), Fail> {
    let mut region = Region::new(rt.alloc(), &[2, 1])?;
    assert!(rt; !region.clash(0, 0));
    region.start(0, 0, 7);
    assert!(rt; !region.clash(0, 1));
    region.start(0, 1, 8);
    assert_eq!(rt; region.port(0), Some(7));
    assert_eq!(rt; region.due(0, 0), Some(7));
    assert!(rt; region.clash(0, 1));
    region.advance_units(1, 1);
    assert_eq!(rt; region.due(0, 0), Some(7));
    region.advance_units(0, 1);
    assert_eq!(rt; region.port(0), Some(8));
    assert_eq!(rt; region.due(0, 0), Some(8));
    region.advance();
    assert_eq!(rt; region.port(0), Some(8));
    assert_eq!(rt; region.due(0, 0), None);
    Ok(())
}
