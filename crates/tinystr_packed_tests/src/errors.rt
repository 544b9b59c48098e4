//! Why bytes aren't a sorted table or a map, as it is printed.

use std::alloc::Global;
use std::fmt::Debug;
use tinystr::ParseError::NonAscii;
use tinystr::ule::UleError::{Length, Parse};
use tinystr_packed::{MapError, NotRising, SortedError, TextMapError};

#[test]
fn errors_are_printed_by_their_names(rt: HostRuntime) {
    let alloc = rt.alloc();
    let order = NotRising { index: 1 };
    let fault = NonAscii;
    let errors = [
        MapError::Keys(Parse { index: 1, fault }),
        MapError::Order(order),
        MapError::Values { keys: 2, len: 3 },
    ];
    let text = "[Keys(Parse { index: 1, fault: NonAscii }), Order(NotRising { index: 1 }), \
                Values { keys: 2, len: 3 }]";
    assert!(rt; is_printed(alloc, errors, text));
    let errors = [
        SortedError::Records(Length { len: 7 }),
        SortedError::Order(order),
    ];
    let text = "[Records(Length { len: 7 }), Order(NotRising { index: 1 })]";
    assert!(rt; is_printed(alloc, errors, text));
    let errors = [
        TextMapError::Keys(SortedError::Order(order)),
        TextMapError::Values(Length { len: 7 }),
        TextMapError::Count { keys: 2, values: 3 },
    ];
    let text = "[Keys(Order(NotRising { index: 1 })), Values(Length { len: 7 }), \
                Count { keys: 2, values: 3 }]";
    assert!(rt; is_printed(alloc, errors, text));
}

fn is_printed<T: Debug + Drop>(alloc: Global, errors: T, text: &str) -> bool {
    match format!(in alloc; "{errors:?}") {
        Ok(printed) => printed.as_str() == text,
        Err(_) => false,
    }
}
