//! The ids of a generated feed.
ghost use Rattle.std.specs.Prelude.{◌≡◌, ◌≤◌, ◌+◌, ◌<◌, ◌^◌, ◌++◌, IfOk, OnOk, string_bytes};
ghost use Rattle.feed_rows.specs.GeneratedFeed.{stop_name, route_name, route_stop, network_name, trip_name, area_name};

use crate::file_text::FileText;
use std::alloc::{AllocError, Global};

impl FileText {
    /// Adds the id of the stop in a row and a column.
    pub fn stop(&mut self, row: u32, column: u32) -> Result<(), AllocError>
        ensures { OnOk result (self.new ≡ self.old ++ stop_name row column) }
    {
        self.text(b"s_")?;
        self.number(row)?;
        self.text(b"_")?;
        self.number(column)
    }

    /// Adds the id of a route.
    pub fn route(&mut self, lines: u32, route: u32) -> Result<(), AllocError>
        ensures { OnOk result (self.new ≡ self.old ++ route_name lines route) }
    {
        if route < lines {
            self.text(b"H")?;
            self.number(route)
        } else {
            self.text(b"V")?;
            self.number(route - lines)
        }
    }

    /// Adds the id of the stop at a position of a route.
    pub fn route_stop(&mut self, lines: u32, route: u32, position: u32) -> Result<(), AllocError>
        ensures { OnOk result (self.new ≡ self.old ++ route_stop lines route position) }
    {
        if route < lines {
            self.stop(route, position)
        } else {
            self.stop(position, route - lines)
        }
    }

    /// Adds the id of a route's network.
    pub fn network(&mut self, route: u32) -> Result<(), AllocError>
        ensures { OnOk result (self.new ≡ self.old ++ network_name route) }
    {
        match route % 3 {
            0 => self.text(b"bus"),
            1 => self.text(b"tram"),
            _ => self.text(b"rail"),
        }
    }

    /// Adds the id of a trip of a route.
    pub fn trip(&mut self, lines: u32, route: u32, trip: u32) -> Result<(), AllocError>
        ensures { OnOk result (self.new ≡ self.old ++ trip_name lines route trip) }
    {
        self.route(lines, route)?;
        self.text(b"_")?;
        self.number(trip)
    }

    /// Adds the id of the area of the stop in a row and a column.
    pub fn area(&mut self, lines: u32, row: u32, column: u32) -> Result<(), AllocError>
        requires { row + column < 2 ^ 32 }
        ensures { OnOk result (self.new ≡ self.old ++ area_name lines row column) }
    {
        if row + column < lines {
            self.text(b"z0")
        } else {
            self.text(b"z1")
        }
    }
}

/// The id of the stop in a row and a column, each counted from 0.
///
/// # Errors
/// Want of memory.
pub fn stop_id(alloc: Global, row: u32, column: u32) -> Result<String, AllocError>
    ensures { IfOk result (λ id. string_bytes id ≡ stop_name row column) }
{
    format!(in alloc; "s_{row}_{column}")
}
