// What the connections of a virtual server run on.

ghost use Rattle.std.specs.Prelude.{◌≡◌, [], slice_index_or};
ghost use Rattle.proxy_core.specs.Serving.{IsSetup};
ghost use Rattle.record_model.specs.Setup.{http_at, name_at, pool_at, port_of};

use crate::server_bodies::EventPlaces;
use conn::{Places, Setup};
use px_bytes::Seq;
use run_config::Config;
use tcl_vars::Vars;

/// What the connections of the virtual server at a place run on, where the bodies of all stand
/// there.
pub fn setup_at<'a>(
    config: &'a Config,
    statics: &'a Vars,
    places: &'a Seq<EventPlaces>,
    place: usize,
) -> Setup<'a>
    ensures { IsSetup config.now statics.now.statics places.now place result }
{
    Setup {
        name: name_at(config, place),
        port: port_at(config, place),
        pool: pool_at(config, place),
        http: http_at(config, place),
        budget: config.budget,
        statics,
        groups: &config.groups,
        rules: config.rules.as_slice(),
        places: places_at(places, place),
    }
}

fn name_at(config: &Config, place: usize) -> &[u8]
    ensures { result.now ≡ name_at config.now place }
{
    match config.virtuals.get(place) {
        Some(server) => server.name.as_bytes(),
        None => &[],
    }
}

fn pool_at(config: &Config, place: usize) -> &[u8]
    ensures { result.now ≡ pool_at config.now place }
{
    match config.virtuals.get(place) {
        Some(server) => server.pool.as_bytes(),
        None => &[],
    }
}

fn http_at(config: &Config, place: usize) -> bool
    ensures { result ≡ http_at config.now place }
{
    match config.virtuals.get(place) {
        Some(server) => server.http,
        None => false,
    }
}

fn port_at(config: &Config, place: usize) -> u16
    ensures { result ≡ port_of config.now place }
{
    match config.virtuals.get(place) {
        Some(server) => server.listen.port,
        None => 0,
    }
}

fn places_at(places: &Seq<EventPlaces>, place: usize) -> &[Places]
    ensures { result.now ≡ slice_index_or places.now place [] }
{
    match places.get(place) {
        Some(places) => places.as_slice(),
        None => &[],
    }
}
