//! Services that aren't declared, or aren't there.
use sbx_flat::service_of;
use sbx_image::Services;
use sbx_known::Spot;
use sbx_rules::declares;
use std::alloc::AllocError;
use v8_meaning::Operation;

/// The services by number, as `.services` names them.
const NAMES: [&str; 3] = ["exit", "get", "put"];

/// Pushes the names of the services that are declared.
fn push_declared(out: &mut String, services: Services) -> Result<(), AllocError> {
    let mut between = "";
    for (number, name) in NAMES.iter().enumerate() {
        if declares(services, number as u32) {
            write!(out, "{between}{name}")?;
            between = ",";
        }
    }
    out.push_str(if between.is_empty() { "none\n" } else { "\n" })
}

/// Pushes the service that a word asks for, beside those that are declared.
pub(crate) fn push_service(
    out: &mut String,
    services: Services,
    spot: &Spot,
) -> Result<(), AllocError> {
    let Operation::TrapOnCondition(trap) = &spot.operation else {
        return Ok(());
    };
    let Some(number) = service_of(trap) else {
        return Ok(());
    };
    match NAMES.get(number as usize) {
        Some(name) => write!(
            out,
            "it asks for {name}, and the line `.services` declares "
        )?,
        None => write!(
            out,
            "{number} is no service: 0 is exit, 1 get and 2 put; declared are "
        )?,
    }
    push_declared(out, services)
}
